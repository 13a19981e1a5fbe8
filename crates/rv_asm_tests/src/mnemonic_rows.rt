//! An instruction of each mnemonic: its word as GNU as makes it, and its text.

/// A row a line: the word in eight hexadecimal digits, a space, and the text, with registers as
/// `x0` to `x31` and numbers in decimal.
pub const ROWS: &str = "\
    aaaaa2b7 lui x5, 699050\n\
    55555317 auipc x6, 349525\n\
    aabaa3ef jal x7, -349526\n\
    55548467 jalr x8, 1365(x9)\n\
    55450a63 beq x10, x20, 1364\n\
    55559a63 bne x11, x21, 1364\n\
    55664a63 blt x12, x22, 1364\n\
    5576da63 bge x13, x23, 1364\n\
    55876a63 bltu x14, x24, 1364\n\
    5597fa63 bgeu x15, x25, 1364\n\
    aaa80183 lb x3, -1366(x16)\n\
    aaa89203 lh x4, -1366(x17)\n\
    aaa92283 lw x5, -1366(x18)\n\
    aaa9b303 ld x6, -1366(x19)\n\
    aaaa4383 lbu x7, -1366(x20)\n\
    aaaad403 lhu x8, -1366(x21)\n\
    aaab6483 lwu x9, -1366(x22)\n\
    544c0aa3 sb x4, 1365(x24)\n\
    545c9aa3 sh x5, 1365(x25)\n\
    546d2aa3 sw x6, 1365(x26)\n\
    547dbaa3 sd x7, 1365(x27)\n\
    d5560093 addi x1, x12, -683\n\
    d556a113 slti x2, x13, -683\n\
    d5573193 sltiu x3, x14, -683\n\
    d557c213 xori x4, x15, -683\n\
    d5586293 ori x5, x16, -683\n\
    d558f313 andi x6, x17, -683\n\
    03f91413 slli x8, x18, 63\n\
    02a9d493 srli x9, x19, 42\n\
    415a5513 srai x10, x20, 21\n\
    015580b3 add x1, x11, x21\n\
    41660133 sub x2, x12, x22\n\
    017691b3 sll x3, x13, x23\n\
    01872233 slt x4, x14, x24\n\
    0197b2b3 sltu x5, x15, x25\n\
    01a84333 xor x6, x16, x26\n\
    01b8d3b3 srl x7, x17, x27\n\
    41c95433 sra x8, x18, x28\n\
    01d9e4b3 or x9, x19, x29\n\
    01ea7533 and x10, x20, x30\n\
    02368bb3 mul x23, x13, x3\n\
    02471c33 mulh x24, x14, x4\n\
    0257acb3 mulhsu x25, x15, x5\n\
    02683d33 mulhu x26, x16, x6\n\
    0278cdb3 div x27, x17, x7\n\
    02895e33 divu x28, x18, x8\n\
    0299eeb3 rem x29, x19, x9\n\
    02aa7f33 remu x30, x20, x10\n\
    555a859b addiw x11, x21, 1365\n\
    01fb161b slliw x12, x22, 31\n\
    015bd69b srliw x13, x23, 21\n\
    40ac571b sraiw x14, x24, 10\n\
    01b7813b addw x2, x15, x27\n\
    41c801bb subw x3, x16, x28\n\
    01d8923b sllw x4, x17, x29\n\
    01e952bb srlw x5, x18, x30\n\
    41f9d33b sraw x6, x19, x31\n\
    03130d3b mulw x26, x6, x17\n\
    0323cdbb divw x27, x7, x18\n\
    03345e3b divuw x28, x8, x19\n\
    0344eebb remw x29, x9, x20\n\
    03557f3b remuw x30, x10, x21\n\
    5552818f fence x3, x5, 1365\n\
    00000073 ecall\n\
    00100073 ebreak\n";
