//! Instructions, and what one step of each does. An assembler made the words. The values of
//! arithmetic, and of loads and stores, are those of expressions of C on which two compilers agree.
//! What a division by zero or one that overflows gives, and where a jump, a branch or a trap goes,
//! was worked out by hand from the RISC-V unprivileged manual.

/// A line for each step: the instruction, its word, what x1 and x2 hold, the program counter, and
/// the end. That is each register that changed with its new value and then the program counter, or
/// a trap with its cause and trap value, or a call. All but the cause is in hexadecimal. x3 held
/// 33, and the others 0. A line that begins with # is a remark.
pub const ROWS: &str = "\
# LUI and AUIPC, which goes round at 2^64.
lui x3, 0x12345 | 123451b7 | 0 0 | 10000 | x3=12345000 pc=10004
lui x3, 0x80000 | 800001b7 | 0 0 | 10000 | x3=ffffffff80000000 pc=10004
lui x3, 0x7ffff | 7ffff1b7 | 0 0 | 10000 | x3=7ffff000 pc=10004
auipc x3, 0x1 | 00001197 | 0 0 | 10ffc | x3=11ffc pc=11000
auipc x3, 0x80000 | 80000197 | 0 0 | 10008 | x3=ffffffff80010008 pc=1000c
auipc x3, 0xfffff | fffff197 | 0 0 | 10004 | x3=f004 pc=10008
# Operations on a register and an immediate.
addi x3, x1, -6 | ffa08193 | 5 0 | 10000 | x3=ffffffffffffffff pc=10004
addi x3, x1, 1 | 00108193 | ffffffffffffffff 0 | 10000 | x3=0 pc=10004
addi x3, x1, 2047 | 7ff08193 | 7fffffffffffffff 0 | 10000 | x3=80000000000007fe pc=10004
addi x3, x1, -2048 | 80008193 | 8000000000000000 0 | 10000 | x3=7ffffffffffff800 pc=10004
slti x3, x1, 0 | 0000a193 | ffffffffffffffff 0 | 10000 | x3=1 pc=10004
slti x3, x1, -1 | fff0a193 | 0 0 | 10000 | x3=0 pc=10004
slti x3, x1, 5 | 0050a193 | 5 0 | 10000 | x3=0 pc=10004
slti x3, x1, -2048 | 8000a193 | 8000000000000000 0 | 10000 | x3=1 pc=10004
sltiu x3, x1, -1 | fff0b193 | 5 0 | 10000 | x3=1 pc=10004
sltiu x3, x1, 2047 | 7ff0b193 | ffffffffffffffff 0 | 10000 | x3=0 pc=10004
sltiu x3, x1, 1 | 0010b193 | 0 0 | 10000 | x3=1 pc=10004
sltiu x3, x1, -1 | fff0b193 | ffffffffffffffff 0 | 10000 | x3=0 pc=10004
xori x3, x1, -1 | fff0c193 | 123456789abcdef0 0 | 10000 | x3=edcba9876543210f pc=10004
xori x3, x1, 85 | 0550c193 | 123456789abcdef0 0 | 10000 | x3=123456789abcdea5 pc=10004
ori x3, x1, 1807 | 70f0e193 | 123456789abcdef0 0 | 10000 | x3=123456789abcdfff pc=10004
ori x3, x1, -2048 | 8000e193 | 123456789abcdef0 0 | 10000 | x3=fffffffffffffef0 pc=10004
andi x3, x1, -256 | f000f193 | 123456789abcdef0 0 | 10000 | x3=123456789abcde00 pc=10004
andi x3, x1, 2047 | 7ff0f193 | 123456789abcdef0 0 | 10000 | x3=6f0 pc=10004
slli x3, x1, 0 | 00009193 | 123456789abcdef0 0 | 10000 | x3=123456789abcdef0 pc=10004
slli x3, x1, 12 | 00c09193 | 123456789abcdef0 0 | 10000 | x3=456789abcdef0000 pc=10004
slli x3, x1, 63 | 03f09193 | 3 0 | 10000 | x3=8000000000000000 pc=10004
srli x3, x1, 4 | 0040d193 | fedcba9876543210 0 | 10000 | x3=fedcba987654321 pc=10004
srli x3, x1, 63 | 03f0d193 | 8000000000000000 0 | 10000 | x3=1 pc=10004
srli x3, x1, 32 | 0200d193 | 8000000000000000 0 | 10000 | x3=80000000 pc=10004
srai x3, x1, 4 | 4040d193 | fedcba9876543210 0 | 10000 | x3=ffedcba987654321 pc=10004
srai x3, x1, 63 | 43f0d193 | 8000000000000000 0 | 10000 | x3=ffffffffffffffff pc=10004
srai x3, x1, 62 | 43e0d193 | 7fffffffffffffff 0 | 10000 | x3=1 pc=10004
# Operations on two registers. A shift takes the low six bits.
add x3, x1, x2 | 002081b3 | ffffffffffffffff 1 | 10000 | x3=0 pc=10004
add x3, x1, x2 | 002081b3 | 7fffffffffffffff 7fffffffffffffff | 10000 | x3=fffffffffffffffe pc=10004
add x3, x1, x2 | 002081b3 | 123456789abcdef0 1111 | 10000 | x3=123456789abcf001 pc=10004
sub x3, x1, x2 | 402081b3 | 0 1 | 10000 | x3=ffffffffffffffff pc=10004
sub x3, x1, x2 | 402081b3 | 8000000000000000 1 | 10000 | x3=7fffffffffffffff pc=10004
sub x3, x1, x2 | 402081b3 | 123456789abcdef0 123456789abcdef0 | 10000 | x3=0 pc=10004
sll x3, x1, x2 | 002091b3 | 123456789abcdef0 8 | 10000 | x3=3456789abcdef000 pc=10004
sll x3, x1, x2 | 002091b3 | 123456789abcdef0 40 | 10000 | x3=123456789abcdef0 pc=10004
sll x3, x1, x2 | 002091b3 | 5 ffffffffffffffff | 10000 | x3=8000000000000000 pc=10004
slt x3, x1, x2 | 0020a1b3 | ffffffffffffffff 0 | 10000 | x3=1 pc=10004
slt x3, x1, x2 | 0020a1b3 | 0 ffffffffffffffff | 10000 | x3=0 pc=10004
slt x3, x1, x2 | 0020a1b3 | 8000000000000000 7fffffffffffffff | 10000 | x3=1 pc=10004
slt x3, x1, x2 | 0020a1b3 | 7 7 | 10000 | x3=0 pc=10004
sltu x3, x1, x2 | 0020b1b3 | ffffffffffffffff 0 | 10000 | x3=0 pc=10004
sltu x3, x1, x2 | 0020b1b3 | 0 ffffffffffffffff | 10000 | x3=1 pc=10004
sltu x3, x1, x2 | 0020b1b3 | 7fffffffffffffff 8000000000000000 | 10000 | x3=1 pc=10004
sltu x3, x1, x2 | 0020b1b3 | 7 7 | 10000 | x3=0 pc=10004
xor x3, x1, x2 | 0020c1b3 | 123456789abcdef0 ffffffffffffffff | 10000 | x3=edcba9876543210f pc=10004
xor x3, x1, x2 | 0020c1b3 | 123456789abcdef0 ff00ff00ff00ff00 | 10000 | x3=ed34a97865bc21f0 pc=10004
srl x3, x1, x2 | 0020d1b3 | fedcba9876543210 8 | 10000 | x3=fedcba98765432 pc=10004
srl x3, x1, x2 | 0020d1b3 | 8000000000000000 7f | 10000 | x3=1 pc=10004
srl x3, x1, x2 | 0020d1b3 | 123456789abcdef0 40 | 10000 | x3=123456789abcdef0 pc=10004
sra x3, x1, x2 | 4020d1b3 | fedcba9876543210 8 | 10000 | x3=fffedcba98765432 pc=10004
sra x3, x1, x2 | 4020d1b3 | 8000000000000000 7f | 10000 | x3=ffffffffffffffff pc=10004
sra x3, x1, x2 | 4020d1b3 | fedcba9876543210 40 | 10000 | x3=fedcba9876543210 pc=10004
sra x3, x1, x2 | 4020d1b3 | 7fffffffffffffff 3e | 10000 | x3=1 pc=10004
or x3, x1, x2 | 0020e1b3 | 123456789abcdef0 ff00ff00ff00ff00 | 10000 | x3=ff34ff78ffbcfff0 pc=10004
or x3, x1, x2 | 0020e1b3 | 0 ffffffffffffffff | 10000 | x3=ffffffffffffffff pc=10004
and x3, x1, x2 | 0020f1b3 | 123456789abcdef0 ff00ff00ff00ff00 | 10000 | x3=120056009a00de00 pc=10004
and x3, x1, x2 | 0020f1b3 | 8000000000000000 ffffffffffffffff | 10000 | x3=8000000000000000 pc=10004
# Operations on low 32 bits, where the upper halves count for nothing.
addiw x3, x1, 1 | 0010819b | ffffffff7fffffff 0 | 10000 | x3=ffffffff80000000 pc=10004
addiw x3, x1, -1 | fff0819b | 1234567800000000 0 | 10000 | x3=ffffffffffffffff pc=10004
addiw x3, x1, 0 | 0000819b | abcdef0180000000 0 | 10000 | x3=ffffffff80000000 pc=10004
slliw x3, x1, 31 | 01f0919b | ffffffff00000001 0 | 10000 | x3=ffffffff80000000 pc=10004
slliw x3, x1, 4 | 0040919b | ffffffff12345678 0 | 10000 | x3=23456780 pc=10004
slliw x3, x1, 1 | 0010919b | 1234567880000001 0 | 10000 | x3=2 pc=10004
srliw x3, x1, 31 | 01f0d19b | ffffffff80000000 0 | 10000 | x3=1 pc=10004
srliw x3, x1, 0 | 0000d19b | ffffffff80000000 0 | 10000 | x3=ffffffff80000000 pc=10004
srliw x3, x1, 4 | 0040d19b | 1234567887654321 0 | 10000 | x3=8765432 pc=10004
sraiw x3, x1, 31 | 41f0d19b | 80000000 0 | 10000 | x3=ffffffffffffffff pc=10004
sraiw x3, x1, 30 | 41e0d19b | ffffffff7fffffff 0 | 10000 | x3=1 pc=10004
sraiw x3, x1, 4 | 4040d19b | 1234567887654321 0 | 10000 | x3=fffffffff8765432 pc=10004
addw x3, x1, x2 | 002081bb | 7fffffff 1 | 10000 | x3=ffffffff80000000 pc=10004
addw x3, x1, x2 | 002081bb | ffffffffffffffff 1234567800000001 | 10000 | x3=0 pc=10004
addw x3, x1, x2 | 002081bb | 100000000 200000000 | 10000 | x3=0 pc=10004
subw x3, x1, x2 | 402081bb | 0 1 | 10000 | x3=ffffffffffffffff pc=10004
subw x3, x1, x2 | 402081bb | ffffffff80000000 1 | 10000 | x3=7fffffff pc=10004
subw x3, x1, x2 | 402081bb | 1234567800000005 8765432100000005 | 10000 | x3=0 pc=10004
sllw x3, x1, x2 | 002091bb | ffffffff00000001 1f | 10000 | x3=ffffffff80000000 pc=10004
sllw x3, x1, x2 | 002091bb | 12345678deadbeef 20 | 10000 | x3=ffffffffdeadbeef pc=10004
sllw x3, x1, x2 | 002091bb | ffffffff00000003 ffffffffffffffff | 10000 \
| x3=ffffffff80000000 pc=10004
srlw x3, x1, x2 | 0020d1bb | ffffffff80000000 0 | 10000 | x3=ffffffff80000000 pc=10004
srlw x3, x1, x2 | 0020d1bb | ffffffff80000000 1f | 10000 | x3=1 pc=10004
srlw x3, x1, x2 | 0020d1bb | 12345678deadbeef 24 | 10000 | x3=deadbee pc=10004
sraw x3, x1, x2 | 4020d1bb | 12345678deadbeef 4 | 10000 | x3=fffffffffdeadbee pc=10004
sraw x3, x1, x2 | 4020d1bb | ffffffff7fffffff 3e | 10000 | x3=1 pc=10004
sraw x3, x1, x2 | 4020d1bb | 80000000 20 | 10000 | x3=ffffffff80000000 pc=10004
# Multiplications. MULHSU takes its second register as unsigned.
mul x3, x1, x2 | 022081b3 | ffffffffffffffff ffffffffffffffff | 10000 | x3=1 pc=10004
mul x3, x1, x2 | 022081b3 | 8000000000000000 2 | 10000 | x3=0 pc=10004
mul x3, x1, x2 | 022081b3 | 123456789abcdef0 fedcba9876543210 | 10000 | x3=236d88fe5618cf00 pc=10004
mulh x3, x1, x2 | 022091b3 | ffffffffffffffff ffffffffffffffff | 10000 | x3=0 pc=10004
mulh x3, x1, x2 | 022091b3 | 8000000000000000 8000000000000000 | 10000 \
| x3=4000000000000000 pc=10004
mulh x3, x1, x2 | 022091b3 | 8000000000000000 7fffffffffffffff | 10000 \
| x3=c000000000000000 pc=10004
mulh x3, x1, x2 | 022091b3 | 7fffffffffffffff 7fffffffffffffff | 10000 \
| x3=3fffffffffffffff pc=10004
mulh x3, x1, x2 | 022091b3 | 123456789abcdef0 ffffffffffffffff | 10000 \
| x3=ffffffffffffffff pc=10004
mulhsu x3, x1, x2 | 0220a1b3 | ffffffffffffffff ffffffffffffffff | 10000 \
| x3=ffffffffffffffff pc=10004
mulhsu x3, x1, x2 | 0220a1b3 | 8000000000000000 ffffffffffffffff | 10000 \
| x3=8000000000000000 pc=10004
mulhsu x3, x1, x2 | 0220a1b3 | 7fffffffffffffff ffffffffffffffff | 10000 \
| x3=7ffffffffffffffe pc=10004
mulhsu x3, x1, x2 | 0220a1b3 | 1 ffffffffffffffff | 10000 | x3=0 pc=10004
mulhsu x3, x1, x2 | 0220a1b3 | 8000000000000000 8000000000000000 | 10000 \
| x3=c000000000000000 pc=10004
mulhu x3, x1, x2 | 0220b1b3 | ffffffffffffffff ffffffffffffffff | 10000 \
| x3=fffffffffffffffe pc=10004
mulhu x3, x1, x2 | 0220b1b3 | 8000000000000000 8000000000000000 | 10000 \
| x3=4000000000000000 pc=10004
mulhu x3, x1, x2 | 0220b1b3 | 123456789abcdef0 fedcba9876543210 | 10000 \
| x3=121fa00ad77d7422 pc=10004
mulhu x3, x1, x2 | 0220b1b3 | ffffffffffffffff 1 | 10000 | x3=0 pc=10004
mulw x3, x1, x2 | 022081bb | ffffffff00010000 10000 | 10000 | x3=0 pc=10004
mulw x3, x1, x2 | 022081bb | 1234567880000000 ffffffffffffffff | 10000 \
| x3=ffffffff80000000 pc=10004
mulw x3, x1, x2 | 022081bb | ffffffff00000007 12345678fffffffd | 10000 \
| x3=ffffffffffffffeb pc=10004
mulw x3, x1, x2 | 022081bb | 10001 ffff | 10000 | x3=ffffffffffffffff pc=10004
# Divisions, also by zero and of the least number by -1.
div x3, x1, x2 | 0220c1b3 | fffffffffffffff9 2 | 10000 | x3=fffffffffffffffd pc=10004
div x3, x1, x2 | 0220c1b3 | 7 fffffffffffffffe | 10000 | x3=fffffffffffffffd pc=10004
div x3, x1, x2 | 0220c1b3 | fffffffffffffff9 fffffffffffffffe | 10000 | x3=3 pc=10004
div x3, x1, x2 | 0220c1b3 | 7 0 | 10000 | x3=ffffffffffffffff pc=10004
div x3, x1, x2 | 0220c1b3 | fffffffffffffff9 0 | 10000 | x3=ffffffffffffffff pc=10004
div x3, x1, x2 | 0220c1b3 | 8000000000000000 ffffffffffffffff | 10000 | x3=8000000000000000 pc=10004
div x3, x1, x2 | 0220c1b3 | 8000000000000000 1 | 10000 | x3=8000000000000000 pc=10004
divu x3, x1, x2 | 0220d1b3 | fffffffffffffff9 2 | 10000 | x3=7ffffffffffffffc pc=10004
divu x3, x1, x2 | 0220d1b3 | 7 0 | 10000 | x3=ffffffffffffffff pc=10004
divu x3, x1, x2 | 0220d1b3 | 8000000000000000 ffffffffffffffff | 10000 | x3=0 pc=10004
divu x3, x1, x2 | 0220d1b3 | ffffffffffffffff 3 | 10000 | x3=5555555555555555 pc=10004
rem x3, x1, x2 | 0220e1b3 | fffffffffffffff9 2 | 10000 | x3=ffffffffffffffff pc=10004
rem x3, x1, x2 | 0220e1b3 | 7 fffffffffffffffe | 10000 | x3=1 pc=10004
rem x3, x1, x2 | 0220e1b3 | fffffffffffffff9 0 | 10000 | x3=fffffffffffffff9 pc=10004
rem x3, x1, x2 | 0220e1b3 | 8000000000000000 ffffffffffffffff | 10000 | x3=0 pc=10004
rem x3, x1, x2 | 0220e1b3 | 8000000000000000 7 | 10000 | x3=ffffffffffffffff pc=10004
remu x3, x1, x2 | 0220f1b3 | fffffffffffffff9 a | 10000 | x3=9 pc=10004
remu x3, x1, x2 | 0220f1b3 | 7 0 | 10000 | x3=7 pc=10004
remu x3, x1, x2 | 0220f1b3 | 8000000000000000 ffffffffffffffff | 10000 \
| x3=8000000000000000 pc=10004
remu x3, x1, x2 | 0220f1b3 | ffffffffffffffff 8000000000000000 | 10000 \
| x3=7fffffffffffffff pc=10004
divw x3, x1, x2 | 0220c1bb | 12345678fffffff9 2 | 10000 | x3=fffffffffffffffd pc=10004
divw x3, x1, x2 | 0220c1bb | ffffffff00000007 1234567800000000 | 10000 \
| x3=ffffffffffffffff pc=10004
divw x3, x1, x2 | 0220c1bb | ffffffff80000000 ffffffff | 10000 | x3=ffffffff80000000 pc=10004
divw x3, x1, x2 | 0220c1bb | 7 abcdef01fffffffe | 10000 | x3=fffffffffffffffd pc=10004
divuw x3, x1, x2 | 0220d1bb | 12345678fffffff9 ffffffff00000001 | 10000 \
| x3=fffffffffffffff9 pc=10004
divuw x3, x1, x2 | 0220d1bb | 7 ffffffff00000000 | 10000 | x3=ffffffffffffffff pc=10004
divuw x3, x1, x2 | 0220d1bb | ffffffff80000000 ffffffff | 10000 | x3=0 pc=10004
divuw x3, x1, x2 | 0220d1bb | 12345678fffffff9 2 | 10000 | x3=7ffffffc pc=10004
remw x3, x1, x2 | 0220e1bb | 12345678fffffff9 2 | 10000 | x3=ffffffffffffffff pc=10004
remw x3, x1, x2 | 0220e1bb | 1234567880000001 ffffffff00000000 | 10000 \
| x3=ffffffff80000001 pc=10004
remw x3, x1, x2 | 0220e1bb | 80000000 12345678ffffffff | 10000 | x3=0 pc=10004
remw x3, x1, x2 | 0220e1bb | 7 abcdef01fffffffe | 10000 | x3=1 pc=10004
remuw x3, x1, x2 | 0220f1bb | 12345678fffffff9 ffffffff00000010 | 10000 | x3=9 pc=10004
remuw x3, x1, x2 | 0220f1bb | 1234567880000001 ffffffff00000000 | 10000 \
| x3=ffffffff80000001 pc=10004
remuw x3, x1, x2 | 0220f1bb | fffffffe ffffffff | 10000 | x3=fffffffffffffffe pc=10004
remuw x3, x1, x2 | 0220f1bb | 7 500000003 | 10000 | x3=1 pc=10004
# A write of x0 is lost, and each register can be one operand twice.
addi x0, x1, 5 | 00508013 | 7 0 | 10000 | pc=10004
mul x0, x1, x1 | 02108033 | 7 0 | 10000 | pc=10004
lui x0, 0xfffff | fffff037 | 7 0 | 10000 | pc=10004
add x3, x1, x1 | 001081b3 | 8000000000000005 0 | 10000 | x3=a pc=10004
add x3, x0, x2 | 002001b3 | 5 9 | 10000 | x3=9 pc=10004
sub x1, x1, x1 | 401080b3 | 7 0 | 10000 | x1=0 pc=10004
# Loads. The byte at an address is the address and 0x80.
lb x3, 0(x1) | 00008183 | 20000 0 | 10000 | x3=ffffffffffffff80 pc=10004
lb x3, -1920(x1) | 88008183 | 20800 0 | 10000 | x3=0 pc=10004
lb x3, 0(x1) | 00008183 | 20fff 0 | 10000 | x3=7f pc=10004
lh x3, 0(x1) | 00009183 | 20000 0 | 10000 | x3=ffffffffffff8180 pc=10004
lh x3, -1920(x1) | 88009183 | 20800 0 | 10000 | x3=100 pc=10004
lh x3, -1(x1) | fff09183 | 21000 0 | 10000 | x3=ffffffffffff807f pc=10004
lw x3, 0(x1) | 0000a183 | 20000 0 | 10000 | x3=ffffffff83828180 pc=10004
lw x3, -1920(x1) | 8800a183 | 20800 0 | 10000 | x3=3020100 pc=10004
lw x3, 0(x1) | 0000a183 | 20ffd 0 | 10000 | x3=ffffffff807f7e7d pc=10004
ld x3, 0(x1) | 0000b183 | 20000 0 | 10000 | x3=8786858483828180 pc=10004
ld x3, -1920(x1) | 8800b183 | 20800 0 | 10000 | x3=706050403020100 pc=10004
ld x3, 0(x1) | 0000b183 | 20ffd 0 | 10000 | x3=84838281807f7e7d pc=10004
lbu x3, 0(x1) | 0000c183 | 20000 0 | 10000 | x3=80 pc=10004
lbu x3, -1920(x1) | 8800c183 | 20800 0 | 10000 | x3=0 pc=10004
lbu x3, 0(x1) | 0000c183 | 20fff 0 | 10000 | x3=7f pc=10004
lhu x3, 0(x1) | 0000d183 | 20000 0 | 10000 | x3=8180 pc=10004
lhu x3, -1920(x1) | 8800d183 | 20800 0 | 10000 | x3=100 pc=10004
lhu x3, -1(x1) | fff0d183 | 21000 0 | 10000 | x3=807f pc=10004
lwu x3, 0(x1) | 0000e183 | 20000 0 | 10000 | x3=83828180 pc=10004
lwu x3, -1920(x1) | 8800e183 | 20800 0 | 10000 | x3=3020100 pc=10004
lwu x3, 0(x1) | 0000e183 | 20ffd 0 | 10000 | x3=807f7e7d pc=10004
# Loads to x0 and to the register of the address, and loads that trap, at the least address that
# isn't readable. The second of those goes round at 2^64.
ld x0, 0(x1) | 0000b003 | 20000 0 | 10000 | pc=10004
lw x1, 4(x1) | 0040a083 | 20000 0 | 10000 | x1=ffffffff87868584 pc=10004
lb x3, -1(x1) | fff08183 | 0 0 | 10000 | trap 13 ffffffffffffffff
lhu x3, 0(x1) | 0000d183 | ffffffffffffffff 0 | 10000 | trap 13 0
ld x0, 0(x1) | 0000b003 | 30000 0 | 10000 | trap 13 30000
ld x3, 0(x1) | 0000b183 | 21ffc 0 | 10000 | trap 13 22000
lw x3, 0(x1) | 0000a183 | 1fffe 0 | 10000 | trap 13 1fffe
lh x3, 0(x1) | 00009183 | 21fff 0 | 10000 | trap 13 22000
# Stores that trap. The last goes round at 2^64.
sb x2, 0(x1) | 00208023 | 22000 1 | 10000 | trap 15 22000
sh x2, -1(x1) | fe209fa3 | 22000 1 | 10000 | trap 15 22000
sw x2, -2(x1) | fe20af23 | 20000 1 | 10000 | trap 15 1fffe
sd x2, 2(x1) | 0020b123 | 21ffa 1 | 10000 | trap 15 22000
sd x2, -8(x1) | fe20bc23 | 4 1 | 10000 | trap 15 0
# Jumps, also to themselves. The bit 0 of a target of JALR is dropped, and where the target
# is no multiple of 4 nothing is linked.
jal x3, .+0x800 | 001001ef | 0 0 | 10000 | x3=10004 pc=10800
jal x3, .-0x800 | 801ff1ef | 0 0 | 10800 | x3=10804 pc=10000
jal x0, . | 0000006f | 0 0 | 10008 | pc=10008
jal x1, . | 000000ef | 0 0 | 10008 | x1=1000c pc=10008
jal x3, .+0xffffc | 7fdff1ef | 0 0 | 10004 | x3=10008 pc=110000
jal x3, .-0x100000 | 800001ef | 0 0 | 10004 | x3=10008 pc=fffffffffff10004
jal x3, .+2 | 002001ef | 0 0 | 10004 | trap 0 10006
jalr x3, 0x7fc(x1) | 7fc081e7 | 20000 0 | 10004 | x3=10008 pc=207fc
jalr x1, 4(x1) | 004080e7 | 20001 0 | 10004 | x1=10008 pc=20004
jalr x1, 0(x1) | 000080e7 | 10004 0 | 10004 | x1=10008 pc=10004
jalr x0, -4(x1) | ffc08067 | 0 0 | 10004 | pc=fffffffffffffffc
jalr x3, 8(x1) | 008081e7 | fffffffffffffffc 0 | 10004 | x3=10008 pc=4
jalr x3, 0(x1) | 000081e7 | 20003 0 | 10004 | trap 0 20002
jalr x1, 2(x1) | 002080e7 | 20000 0 | 10004 | trap 0 20002
# Branches, taken and not.
beq x1, x2, .+64 | 04208063 | 7 7 | 10100 | pc=10140
beq x1, x2, .+64 | 04208063 | 7 8 | 10100 | pc=10104
beq x1, x2, .-64 | fc2080e3 | 8000000000000000 0 | 10100 | pc=10104
beq x1, x2, .-64 | fc2080e3 | ffffffffffffffff ffffffffffffffff | 10100 | pc=100c0
bne x1, x2, .+64 | 04209063 | 7 7 | 10100 | pc=10104
bne x1, x2, .+64 | 04209063 | 7 8 | 10100 | pc=10140
bne x1, x2, .-64 | fc2090e3 | 100000000 0 | 10100 | pc=100c0
bne x1, x2, .-64 | fc2090e3 | 0 0 | 10100 | pc=10104
blt x1, x2, .+64 | 0420c063 | ffffffffffffffff 0 | 10100 | pc=10140
blt x1, x2, .+64 | 0420c063 | 0 ffffffffffffffff | 10100 | pc=10104
blt x1, x2, .-64 | fc20c0e3 | 8000000000000000 7fffffffffffffff | 10100 | pc=100c0
blt x1, x2, .-64 | fc20c0e3 | 7 7 | 10100 | pc=10104
bge x1, x2, .+64 | 0420d063 | ffffffffffffffff 0 | 10100 | pc=10104
bge x1, x2, .+64 | 0420d063 | 0 ffffffffffffffff | 10100 | pc=10140
bge x1, x2, .-64 | fc20d0e3 | 8000000000000000 7fffffffffffffff | 10100 | pc=10104
bge x1, x2, .-64 | fc20d0e3 | 7 7 | 10100 | pc=100c0
bltu x1, x2, .+64 | 0420e063 | ffffffffffffffff 0 | 10100 | pc=10104
bltu x1, x2, .+64 | 0420e063 | 0 ffffffffffffffff | 10100 | pc=10140
bltu x1, x2, .-64 | fc20e0e3 | 7fffffffffffffff 8000000000000000 | 10100 | pc=100c0
bltu x1, x2, .-64 | fc20e0e3 | 7 7 | 10100 | pc=10104
bgeu x1, x2, .+64 | 0420f063 | ffffffffffffffff 0 | 10100 | pc=10140
bgeu x1, x2, .+64 | 0420f063 | 0 ffffffffffffffff | 10100 | pc=10104
bgeu x1, x2, .-64 | fc20f0e3 | 7fffffffffffffff 8000000000000000 | 10100 | pc=10104
bgeu x1, x2, .-64 | fc20f0e3 | 7 7 | 10100 | pc=100c0
beq x1, x2, .+4092 | 7e208ee3 | 3 3 | 10100 | pc=110fc
bne x1, x2, .-4096 | 80209063 | 3 4 | 10100 | pc=f100
beq x0, x0, . | 00000063 | 0 0 | 10100 | pc=10100
bge x1, x2, .+6 | 0020d363 | 5 5 | 10100 | trap 0 10106
bne x1, x2, .+6 | 00209363 | 5 5 | 10100 | pc=10104
# FENCE, ECALL and EBREAK.
fence iorw, iorw | 0ff0000f | 1 2 | 10004 | pc=10008
fence.tso | 8330000f | 1 2 | 10004 | pc=10008
ecall | 00000073 | 1 2 | 10004 | call
ecall | 00000073 | 1 2 | 10ffc | call
ebreak | 00100073 | 1 2 | 10004 | trap 3 10004
ebreak | 00100073 | 1 2 | 10ffc | trap 3 10ffc
# Words that are no instruction: zero, ones, a CSR read, and MRET.
.word 0 | 00000000 | 1 2 | 10004 | trap 2 0
.word 0xffffffff | ffffffff | 1 2 | 10004 | trap 2 ffffffff
csrrs x3, cycle, x0 | c00021f3 | 1 2 | 10004 | trap 2 c00021f3
mret | 30200073 | 1 2 | 10004 | trap 2 30200073
";

/// A line for each store at 0x10000: the instruction, its word, what x1 and x2 hold, an address,
/// and the eight bytes from there on afterwards as a number, the lowest byte first. Before it each
/// byte is the low byte of its address and 0x80.
pub const STORES: &str = "\
sb x2, 0(x1) | 00208023 | 20000 1122334455667788 | 20000 | 8786858483828188
sb x2, 7(x1) | 002083a3 | 20000 ffffffffffffff00 | 20000 | 86858483828180
sb x2, -1(x1) | fe208fa3 | 21000 1122334455667788 | 20ffc | 83828180887e7d7c
sh x2, 0(x1) | 00209023 | 20000 1122334455667788 | 20000 | 8786858483827788
sh x2, 1(x1) | 002090a3 | 20100 abcdef0000008001 | 20100 | 8786858483800180
sh x2, -1(x1) | fe209fa3 | 21000 1122334455667788 | 20ffc | 83828177887e7d7c
sw x2, 0(x1) | 0020a023 | 20000 1122334455667788 | 20000 | 8786858455667788
sw x2, -4(x1) | fe20ae23 | 20008 ffffffff80000001 | 20000 | 8000000183828180
sw x2, -2(x1) | fe20af23 | 21000 1122334455667788 | 20ffc | 8382556677887d7c
sd x2, 0(x1) | 0020b023 | 20000 1122334455667788 | 20000 | 1122334455667788
sd x2, -2048(x1) | 8020b023 | 20800 8000000000000001 | 20000 | 8000000000000001
sd x2, 2047(x1) | 7e20bfa3 | 207fd 1122334455667788 | 20ffc | 1122334455667788
sd x2, -8(x1) | fe20bc23 | 22000 1122334455667788 | 21ff8 | 1122334455667788
sd x0, 0(x1) | 0000b023 | 20000 1122334455667788 | 20000 | 0
sd x1, 8(x1) | 0010b423 | 20000 0 | 20008 | 20000
";
