//! Words and their instructions, from an assembler (scripts/rv_code_table.sh).

/// A line for each word: the word, and its instruction as `{:?}` prints it.
pub const ROWS: &str = "\
00000037 Lui { rd: 0, n: 0 }
000010b7 Lui { rd: 1, n: 1 }
80000fb7 Lui { rd: 31, n: 524288 }
fffff537 Lui { rd: 10, n: 1048575 }
00000017 Auipc { rd: 0, n: 0 }
00001097 Auipc { rd: 1, n: 1 }
80000f97 Auipc { rd: 31, n: 524288 }
fffff517 Auipc { rd: 10, n: 1048575 }
0000006f Jal { rd: 0, offset: 0 }
002000ef Jal { rd: 1, offset: 2 }
7fffffef Jal { rd: 31, offset: 1048574 }
800002ef Jal { rd: 5, offset: -1048576 }
fffff0ef Jal { rd: 1, offset: -2 }
0010036f Jal { rd: 6, offset: 2048 }
000013ef Jal { rd: 7, offset: 4096 }
2abaa46f Jal { rd: 8, offset: 699050 }
aabaa4ef Jal { rd: 9, offset: -349526 }
00008067 Jalr { rd: 0, rs1: 1, imm: 0 }
ffff80e7 Jalr { rd: 1, rs1: 31, imm: -1 }
7ff00fe7 Jalr { rd: 31, rs1: 0, imm: 2047 }
800302e7 Jalr { rd: 5, rs1: 6, imm: -2048 }
00000063 Branch { op: Beq, rs1: 0, rs2: 0, offset: 0 }
7e208fe3 Branch { op: Beq, rs1: 1, rs2: 2, offset: 4094 }
81ef8063 Branch { op: Beq, rs1: 31, rs2: 30, offset: -4096 }
fff18fe3 Branch { op: Beq, rs1: 3, rs2: 31, offset: -2 }
005200e3 Branch { op: Beq, rs1: 4, rs2: 5, offset: 2048 }
54730a63 Branch { op: Beq, rs1: 6, rs2: 7, offset: 1364 }
00001063 Branch { op: Bne, rs1: 0, rs2: 0, offset: 0 }
7e209fe3 Branch { op: Bne, rs1: 1, rs2: 2, offset: 4094 }
81ef9063 Branch { op: Bne, rs1: 31, rs2: 30, offset: -4096 }
fff19fe3 Branch { op: Bne, rs1: 3, rs2: 31, offset: -2 }
005210e3 Branch { op: Bne, rs1: 4, rs2: 5, offset: 2048 }
54731a63 Branch { op: Bne, rs1: 6, rs2: 7, offset: 1364 }
00004063 Branch { op: Blt, rs1: 0, rs2: 0, offset: 0 }
7e20cfe3 Branch { op: Blt, rs1: 1, rs2: 2, offset: 4094 }
81efc063 Branch { op: Blt, rs1: 31, rs2: 30, offset: -4096 }
fff1cfe3 Branch { op: Blt, rs1: 3, rs2: 31, offset: -2 }
005240e3 Branch { op: Blt, rs1: 4, rs2: 5, offset: 2048 }
54734a63 Branch { op: Blt, rs1: 6, rs2: 7, offset: 1364 }
00005063 Branch { op: Bge, rs1: 0, rs2: 0, offset: 0 }
7e20dfe3 Branch { op: Bge, rs1: 1, rs2: 2, offset: 4094 }
81efd063 Branch { op: Bge, rs1: 31, rs2: 30, offset: -4096 }
fff1dfe3 Branch { op: Bge, rs1: 3, rs2: 31, offset: -2 }
005250e3 Branch { op: Bge, rs1: 4, rs2: 5, offset: 2048 }
54735a63 Branch { op: Bge, rs1: 6, rs2: 7, offset: 1364 }
00006063 Branch { op: Bltu, rs1: 0, rs2: 0, offset: 0 }
7e20efe3 Branch { op: Bltu, rs1: 1, rs2: 2, offset: 4094 }
81efe063 Branch { op: Bltu, rs1: 31, rs2: 30, offset: -4096 }
fff1efe3 Branch { op: Bltu, rs1: 3, rs2: 31, offset: -2 }
005260e3 Branch { op: Bltu, rs1: 4, rs2: 5, offset: 2048 }
54736a63 Branch { op: Bltu, rs1: 6, rs2: 7, offset: 1364 }
00007063 Branch { op: Bgeu, rs1: 0, rs2: 0, offset: 0 }
7e20ffe3 Branch { op: Bgeu, rs1: 1, rs2: 2, offset: 4094 }
81eff063 Branch { op: Bgeu, rs1: 31, rs2: 30, offset: -4096 }
fff1ffe3 Branch { op: Bgeu, rs1: 3, rs2: 31, offset: -2 }
005270e3 Branch { op: Bgeu, rs1: 4, rs2: 5, offset: 2048 }
54737a63 Branch { op: Bgeu, rs1: 6, rs2: 7, offset: 1364 }
000f8003 Load { op: Lb, rd: 0, rs1: 31, imm: 0 }
fff00f83 Load { op: Lb, rd: 31, rs1: 0, imm: -1 }
7ff10083 Load { op: Lb, rd: 1, rs1: 2, imm: 2047 }
80020183 Load { op: Lb, rd: 3, rs1: 4, imm: -2048 }
55530283 Load { op: Lb, rd: 5, rs1: 6, imm: 1365 }
000f9003 Load { op: Lh, rd: 0, rs1: 31, imm: 0 }
fff01f83 Load { op: Lh, rd: 31, rs1: 0, imm: -1 }
7ff11083 Load { op: Lh, rd: 1, rs1: 2, imm: 2047 }
80021183 Load { op: Lh, rd: 3, rs1: 4, imm: -2048 }
55531283 Load { op: Lh, rd: 5, rs1: 6, imm: 1365 }
000fa003 Load { op: Lw, rd: 0, rs1: 31, imm: 0 }
fff02f83 Load { op: Lw, rd: 31, rs1: 0, imm: -1 }
7ff12083 Load { op: Lw, rd: 1, rs1: 2, imm: 2047 }
80022183 Load { op: Lw, rd: 3, rs1: 4, imm: -2048 }
55532283 Load { op: Lw, rd: 5, rs1: 6, imm: 1365 }
000fb003 Load { op: Ld, rd: 0, rs1: 31, imm: 0 }
fff03f83 Load { op: Ld, rd: 31, rs1: 0, imm: -1 }
7ff13083 Load { op: Ld, rd: 1, rs1: 2, imm: 2047 }
80023183 Load { op: Ld, rd: 3, rs1: 4, imm: -2048 }
55533283 Load { op: Ld, rd: 5, rs1: 6, imm: 1365 }
000fc003 Load { op: Lbu, rd: 0, rs1: 31, imm: 0 }
fff04f83 Load { op: Lbu, rd: 31, rs1: 0, imm: -1 }
7ff14083 Load { op: Lbu, rd: 1, rs1: 2, imm: 2047 }
80024183 Load { op: Lbu, rd: 3, rs1: 4, imm: -2048 }
55534283 Load { op: Lbu, rd: 5, rs1: 6, imm: 1365 }
000fd003 Load { op: Lhu, rd: 0, rs1: 31, imm: 0 }
fff05f83 Load { op: Lhu, rd: 31, rs1: 0, imm: -1 }
7ff15083 Load { op: Lhu, rd: 1, rs1: 2, imm: 2047 }
80025183 Load { op: Lhu, rd: 3, rs1: 4, imm: -2048 }
55535283 Load { op: Lhu, rd: 5, rs1: 6, imm: 1365 }
000fe003 Load { op: Lwu, rd: 0, rs1: 31, imm: 0 }
fff06f83 Load { op: Lwu, rd: 31, rs1: 0, imm: -1 }
7ff16083 Load { op: Lwu, rd: 1, rs1: 2, imm: 2047 }
80026183 Load { op: Lwu, rd: 3, rs1: 4, imm: -2048 }
55536283 Load { op: Lwu, rd: 5, rs1: 6, imm: 1365 }
000f8023 Store { op: Sb, rs1: 31, rs2: 0, imm: 0 }
fff00fa3 Store { op: Sb, rs1: 0, rs2: 31, imm: -1 }
7e110fa3 Store { op: Sb, rs1: 2, rs2: 1, imm: 2047 }
80320023 Store { op: Sb, rs1: 4, rs2: 3, imm: -2048 }
54530aa3 Store { op: Sb, rs1: 6, rs2: 5, imm: 1365 }
000f9023 Store { op: Sh, rs1: 31, rs2: 0, imm: 0 }
fff01fa3 Store { op: Sh, rs1: 0, rs2: 31, imm: -1 }
7e111fa3 Store { op: Sh, rs1: 2, rs2: 1, imm: 2047 }
80321023 Store { op: Sh, rs1: 4, rs2: 3, imm: -2048 }
54531aa3 Store { op: Sh, rs1: 6, rs2: 5, imm: 1365 }
000fa023 Store { op: Sw, rs1: 31, rs2: 0, imm: 0 }
fff02fa3 Store { op: Sw, rs1: 0, rs2: 31, imm: -1 }
7e112fa3 Store { op: Sw, rs1: 2, rs2: 1, imm: 2047 }
80322023 Store { op: Sw, rs1: 4, rs2: 3, imm: -2048 }
54532aa3 Store { op: Sw, rs1: 6, rs2: 5, imm: 1365 }
000fb023 Store { op: Sd, rs1: 31, rs2: 0, imm: 0 }
fff03fa3 Store { op: Sd, rs1: 0, rs2: 31, imm: -1 }
7e113fa3 Store { op: Sd, rs1: 2, rs2: 1, imm: 2047 }
80323023 Store { op: Sd, rs1: 4, rs2: 3, imm: -2048 }
54533aa3 Store { op: Sd, rs1: 6, rs2: 5, imm: 1365 }
00000013 OpImm { op: Addi, rd: 0, rs1: 0, imm: 0 }
fff08f93 OpImm { op: Addi, rd: 31, rs1: 1, imm: -1 }
7fff8093 OpImm { op: Addi, rd: 1, rs1: 31, imm: 2047 }
80018113 OpImm { op: Addi, rd: 2, rs1: 3, imm: -2048 }
00002013 OpImm { op: Slti, rd: 0, rs1: 0, imm: 0 }
fff0af93 OpImm { op: Slti, rd: 31, rs1: 1, imm: -1 }
7fffa093 OpImm { op: Slti, rd: 1, rs1: 31, imm: 2047 }
8001a113 OpImm { op: Slti, rd: 2, rs1: 3, imm: -2048 }
00003013 OpImm { op: Sltiu, rd: 0, rs1: 0, imm: 0 }
fff0bf93 OpImm { op: Sltiu, rd: 31, rs1: 1, imm: -1 }
7fffb093 OpImm { op: Sltiu, rd: 1, rs1: 31, imm: 2047 }
8001b113 OpImm { op: Sltiu, rd: 2, rs1: 3, imm: -2048 }
00004013 OpImm { op: Xori, rd: 0, rs1: 0, imm: 0 }
fff0cf93 OpImm { op: Xori, rd: 31, rs1: 1, imm: -1 }
7fffc093 OpImm { op: Xori, rd: 1, rs1: 31, imm: 2047 }
8001c113 OpImm { op: Xori, rd: 2, rs1: 3, imm: -2048 }
00006013 OpImm { op: Ori, rd: 0, rs1: 0, imm: 0 }
fff0ef93 OpImm { op: Ori, rd: 31, rs1: 1, imm: -1 }
7fffe093 OpImm { op: Ori, rd: 1, rs1: 31, imm: 2047 }
8001e113 OpImm { op: Ori, rd: 2, rs1: 3, imm: -2048 }
00007013 OpImm { op: Andi, rd: 0, rs1: 0, imm: 0 }
fff0ff93 OpImm { op: Andi, rd: 31, rs1: 1, imm: -1 }
7ffff093 OpImm { op: Andi, rd: 1, rs1: 31, imm: 2047 }
8001f113 OpImm { op: Andi, rd: 2, rs1: 3, imm: -2048 }
0000001b OpImmW { op: Addiw, rd: 0, rs1: 0, imm: 0 }
fff08f9b OpImmW { op: Addiw, rd: 31, rs1: 1, imm: -1 }
7fff809b OpImmW { op: Addiw, rd: 1, rs1: 31, imm: 2047 }
8001811b OpImmW { op: Addiw, rd: 2, rs1: 3, imm: -2048 }
000f9013 OpImm { op: Slli, rd: 0, rs1: 31, imm: 0 }
00101f93 OpImm { op: Slli, rd: 31, rs1: 0, imm: 1 }
02041413 OpImm { op: Slli, rd: 8, rs1: 8, imm: 32 }
03f11093 OpImm { op: Slli, rd: 1, rs1: 2, imm: 63 }
000fd013 OpImm { op: Srli, rd: 0, rs1: 31, imm: 0 }
00105f93 OpImm { op: Srli, rd: 31, rs1: 0, imm: 1 }
02045413 OpImm { op: Srli, rd: 8, rs1: 8, imm: 32 }
03f15093 OpImm { op: Srli, rd: 1, rs1: 2, imm: 63 }
400fd013 OpImm { op: Srai, rd: 0, rs1: 31, imm: 0 }
40105f93 OpImm { op: Srai, rd: 31, rs1: 0, imm: 1 }
42045413 OpImm { op: Srai, rd: 8, rs1: 8, imm: 32 }
43f15093 OpImm { op: Srai, rd: 1, rs1: 2, imm: 63 }
000f901b OpImmW { op: Slliw, rd: 0, rs1: 31, imm: 0 }
00101f9b OpImmW { op: Slliw, rd: 31, rs1: 0, imm: 1 }
0104141b OpImmW { op: Slliw, rd: 8, rs1: 8, imm: 16 }
01f1109b OpImmW { op: Slliw, rd: 1, rs1: 2, imm: 31 }
000fd01b OpImmW { op: Srliw, rd: 0, rs1: 31, imm: 0 }
00105f9b OpImmW { op: Srliw, rd: 31, rs1: 0, imm: 1 }
0104541b OpImmW { op: Srliw, rd: 8, rs1: 8, imm: 16 }
01f1509b OpImmW { op: Srliw, rd: 1, rs1: 2, imm: 31 }
400fd01b OpImmW { op: Sraiw, rd: 0, rs1: 31, imm: 0 }
40105f9b OpImmW { op: Sraiw, rd: 31, rs1: 0, imm: 1 }
4104541b OpImmW { op: Sraiw, rd: 8, rs1: 8, imm: 16 }
41f1509b OpImmW { op: Sraiw, rd: 1, rs1: 2, imm: 31 }
00000033 Op { op: Add, rd: 0, rs1: 0, rs2: 0 }
01ff8fb3 Op { op: Add, rd: 31, rs1: 31, rs2: 31 }
004100b3 Op { op: Add, rd: 1, rs1: 2, rs2: 4 }
01f80433 Op { op: Add, rd: 8, rs1: 16, rs2: 31 }
40000033 Op { op: Sub, rd: 0, rs1: 0, rs2: 0 }
41ff8fb3 Op { op: Sub, rd: 31, rs1: 31, rs2: 31 }
404100b3 Op { op: Sub, rd: 1, rs1: 2, rs2: 4 }
41f80433 Op { op: Sub, rd: 8, rs1: 16, rs2: 31 }
00001033 Op { op: Sll, rd: 0, rs1: 0, rs2: 0 }
01ff9fb3 Op { op: Sll, rd: 31, rs1: 31, rs2: 31 }
004110b3 Op { op: Sll, rd: 1, rs1: 2, rs2: 4 }
01f81433 Op { op: Sll, rd: 8, rs1: 16, rs2: 31 }
00002033 Op { op: Slt, rd: 0, rs1: 0, rs2: 0 }
01ffafb3 Op { op: Slt, rd: 31, rs1: 31, rs2: 31 }
004120b3 Op { op: Slt, rd: 1, rs1: 2, rs2: 4 }
01f82433 Op { op: Slt, rd: 8, rs1: 16, rs2: 31 }
00003033 Op { op: Sltu, rd: 0, rs1: 0, rs2: 0 }
01ffbfb3 Op { op: Sltu, rd: 31, rs1: 31, rs2: 31 }
004130b3 Op { op: Sltu, rd: 1, rs1: 2, rs2: 4 }
01f83433 Op { op: Sltu, rd: 8, rs1: 16, rs2: 31 }
00004033 Op { op: Xor, rd: 0, rs1: 0, rs2: 0 }
01ffcfb3 Op { op: Xor, rd: 31, rs1: 31, rs2: 31 }
004140b3 Op { op: Xor, rd: 1, rs1: 2, rs2: 4 }
01f84433 Op { op: Xor, rd: 8, rs1: 16, rs2: 31 }
00005033 Op { op: Srl, rd: 0, rs1: 0, rs2: 0 }
01ffdfb3 Op { op: Srl, rd: 31, rs1: 31, rs2: 31 }
004150b3 Op { op: Srl, rd: 1, rs1: 2, rs2: 4 }
01f85433 Op { op: Srl, rd: 8, rs1: 16, rs2: 31 }
40005033 Op { op: Sra, rd: 0, rs1: 0, rs2: 0 }
41ffdfb3 Op { op: Sra, rd: 31, rs1: 31, rs2: 31 }
404150b3 Op { op: Sra, rd: 1, rs1: 2, rs2: 4 }
41f85433 Op { op: Sra, rd: 8, rs1: 16, rs2: 31 }
00006033 Op { op: Or, rd: 0, rs1: 0, rs2: 0 }
01ffefb3 Op { op: Or, rd: 31, rs1: 31, rs2: 31 }
004160b3 Op { op: Or, rd: 1, rs1: 2, rs2: 4 }
01f86433 Op { op: Or, rd: 8, rs1: 16, rs2: 31 }
00007033 Op { op: And, rd: 0, rs1: 0, rs2: 0 }
01ffffb3 Op { op: And, rd: 31, rs1: 31, rs2: 31 }
004170b3 Op { op: And, rd: 1, rs1: 2, rs2: 4 }
01f87433 Op { op: And, rd: 8, rs1: 16, rs2: 31 }
02000033 Op { op: Mul, rd: 0, rs1: 0, rs2: 0 }
03ff8fb3 Op { op: Mul, rd: 31, rs1: 31, rs2: 31 }
024100b3 Op { op: Mul, rd: 1, rs1: 2, rs2: 4 }
03f80433 Op { op: Mul, rd: 8, rs1: 16, rs2: 31 }
02001033 Op { op: Mulh, rd: 0, rs1: 0, rs2: 0 }
03ff9fb3 Op { op: Mulh, rd: 31, rs1: 31, rs2: 31 }
024110b3 Op { op: Mulh, rd: 1, rs1: 2, rs2: 4 }
03f81433 Op { op: Mulh, rd: 8, rs1: 16, rs2: 31 }
02002033 Op { op: Mulhsu, rd: 0, rs1: 0, rs2: 0 }
03ffafb3 Op { op: Mulhsu, rd: 31, rs1: 31, rs2: 31 }
024120b3 Op { op: Mulhsu, rd: 1, rs1: 2, rs2: 4 }
03f82433 Op { op: Mulhsu, rd: 8, rs1: 16, rs2: 31 }
02003033 Op { op: Mulhu, rd: 0, rs1: 0, rs2: 0 }
03ffbfb3 Op { op: Mulhu, rd: 31, rs1: 31, rs2: 31 }
024130b3 Op { op: Mulhu, rd: 1, rs1: 2, rs2: 4 }
03f83433 Op { op: Mulhu, rd: 8, rs1: 16, rs2: 31 }
02004033 Op { op: Div, rd: 0, rs1: 0, rs2: 0 }
03ffcfb3 Op { op: Div, rd: 31, rs1: 31, rs2: 31 }
024140b3 Op { op: Div, rd: 1, rs1: 2, rs2: 4 }
03f84433 Op { op: Div, rd: 8, rs1: 16, rs2: 31 }
02005033 Op { op: Divu, rd: 0, rs1: 0, rs2: 0 }
03ffdfb3 Op { op: Divu, rd: 31, rs1: 31, rs2: 31 }
024150b3 Op { op: Divu, rd: 1, rs1: 2, rs2: 4 }
03f85433 Op { op: Divu, rd: 8, rs1: 16, rs2: 31 }
02006033 Op { op: Rem, rd: 0, rs1: 0, rs2: 0 }
03ffefb3 Op { op: Rem, rd: 31, rs1: 31, rs2: 31 }
024160b3 Op { op: Rem, rd: 1, rs1: 2, rs2: 4 }
03f86433 Op { op: Rem, rd: 8, rs1: 16, rs2: 31 }
02007033 Op { op: Remu, rd: 0, rs1: 0, rs2: 0 }
03ffffb3 Op { op: Remu, rd: 31, rs1: 31, rs2: 31 }
024170b3 Op { op: Remu, rd: 1, rs1: 2, rs2: 4 }
03f87433 Op { op: Remu, rd: 8, rs1: 16, rs2: 31 }
0000003b OpW { op: Addw, rd: 0, rs1: 0, rs2: 0 }
01ff8fbb OpW { op: Addw, rd: 31, rs1: 31, rs2: 31 }
004100bb OpW { op: Addw, rd: 1, rs1: 2, rs2: 4 }
01f8043b OpW { op: Addw, rd: 8, rs1: 16, rs2: 31 }
4000003b OpW { op: Subw, rd: 0, rs1: 0, rs2: 0 }
41ff8fbb OpW { op: Subw, rd: 31, rs1: 31, rs2: 31 }
404100bb OpW { op: Subw, rd: 1, rs1: 2, rs2: 4 }
41f8043b OpW { op: Subw, rd: 8, rs1: 16, rs2: 31 }
0000103b OpW { op: Sllw, rd: 0, rs1: 0, rs2: 0 }
01ff9fbb OpW { op: Sllw, rd: 31, rs1: 31, rs2: 31 }
004110bb OpW { op: Sllw, rd: 1, rs1: 2, rs2: 4 }
01f8143b OpW { op: Sllw, rd: 8, rs1: 16, rs2: 31 }
0000503b OpW { op: Srlw, rd: 0, rs1: 0, rs2: 0 }
01ffdfbb OpW { op: Srlw, rd: 31, rs1: 31, rs2: 31 }
004150bb OpW { op: Srlw, rd: 1, rs1: 2, rs2: 4 }
01f8543b OpW { op: Srlw, rd: 8, rs1: 16, rs2: 31 }
4000503b OpW { op: Sraw, rd: 0, rs1: 0, rs2: 0 }
41ffdfbb OpW { op: Sraw, rd: 31, rs1: 31, rs2: 31 }
404150bb OpW { op: Sraw, rd: 1, rs1: 2, rs2: 4 }
41f8543b OpW { op: Sraw, rd: 8, rs1: 16, rs2: 31 }
0200003b OpW { op: Mulw, rd: 0, rs1: 0, rs2: 0 }
03ff8fbb OpW { op: Mulw, rd: 31, rs1: 31, rs2: 31 }
024100bb OpW { op: Mulw, rd: 1, rs1: 2, rs2: 4 }
03f8043b OpW { op: Mulw, rd: 8, rs1: 16, rs2: 31 }
0200403b OpW { op: Divw, rd: 0, rs1: 0, rs2: 0 }
03ffcfbb OpW { op: Divw, rd: 31, rs1: 31, rs2: 31 }
024140bb OpW { op: Divw, rd: 1, rs1: 2, rs2: 4 }
03f8443b OpW { op: Divw, rd: 8, rs1: 16, rs2: 31 }
0200503b OpW { op: Divuw, rd: 0, rs1: 0, rs2: 0 }
03ffdfbb OpW { op: Divuw, rd: 31, rs1: 31, rs2: 31 }
024150bb OpW { op: Divuw, rd: 1, rs1: 2, rs2: 4 }
03f8543b OpW { op: Divuw, rd: 8, rs1: 16, rs2: 31 }
0200603b OpW { op: Remw, rd: 0, rs1: 0, rs2: 0 }
03ffefbb OpW { op: Remw, rd: 31, rs1: 31, rs2: 31 }
024160bb OpW { op: Remw, rd: 1, rs1: 2, rs2: 4 }
03f8643b OpW { op: Remw, rd: 8, rs1: 16, rs2: 31 }
0200703b OpW { op: Remuw, rd: 0, rs1: 0, rs2: 0 }
03ffffbb OpW { op: Remuw, rd: 31, rs1: 31, rs2: 31 }
024170bb OpW { op: Remuw, rd: 1, rs1: 2, rs2: 4 }
03f8743b OpW { op: Remuw, rd: 8, rs1: 16, rs2: 31 }
0ff0000f Fence { rd: 0, rs1: 0, n: 255 }
0210000f Fence { rd: 0, rs1: 0, n: 33 }
0120000f Fence { rd: 0, rs1: 0, n: 18 }
0c30000f Fence { rd: 0, rs1: 0, n: 195 }
00000073 Ecall
00100073 Ebreak
";
