//! Texts and what becomes of them, worked out by hand: the line and the kind of the first fault, or
//! `ok`. Behind the first bar stands the text, with bars for its line feeds.

/// A row a line.
pub const ROWS: &str = "\
    2 UnknownName|.segment 0x10000 rx 64|foo x1, x2, x3\n\
    2 UnknownName|.segment 0x10000 rx 64|ADD x1, x2, x3\n\
    2 UnknownName|.segment 0x10000 rx 64|loop: addi x1, x0, 1\n\
    1 UnknownName|???\n\
    1 UnknownName|.text\n\
    2 UnknownName||.section x|\n\
    2 UnknownName|.segment 0x10000 rx 64|add x1, x2, x32\n\
    2 UnknownName|.segment 0x10000 rx 64|add x1, x02, x3\n\
    2 UnknownName|.segment 0x10000 rx 64|add x1, fp, x3\n\
    2 UnknownName|.segment 0x10000 rx 64|add x1, X2, x3\n\
    2 UnknownName|.segment 0x10000 rx 64|addi x1, 5, huge\n\
    2 UnknownName|.segment 0x10000 rx 64|ld x1, y(x99)\n\
    1 BadShape|addi x1, x0, 1\n\
    1 BadShape|addi x1, q, 99999\n\
    1 BadShape|loop:\n\
    1 BadShape|.word q\n\
    1 BadShape|.zero -1\n\
    2 BadShape|.segment 0x10000 rx 64|1a:\n\
    2 BadShape|.segment 0x10000 rx 64|a-b:\n\
    2 BadShape|.segment 0x10000 rx 64|:\n\
    2 BadShape|.segment 0x10000 rx 64|add x1, x2\n\
    2 BadShape|.segment 0x10000 rx 64|add x1, x2, x3, x4\n\
    2 BadShape|.segment 0x10000 rx 64|add x1, , q\n\
    2 BadShape|.segment 0x10000 rx 64|add x1, x 2, q\n\
    2 BadShape|.segment 0x10000 rx 64|add x1, x2, (x3)\n\
    2 BadShape|.segment 0x10000 rx 64|add\n\
    2 BadShape|.segment 0x10000 rx 64|ecall x1\n\
    2 BadShape|.segment 0x10000 rx 64|ld x1, x2\n\
    2 BadShape|.segment 0x10000 rx 64|ld x1, (x2)\n\
    2 BadShape|.segment 0x10000 rx 64|ld x1, 0(x2\n\
    2 BadShape|.segment 0x10000 rx 64|ld x1, 0(x2))\n\
    2 BadShape|.segment 0x10000 rx 64|ld x1, 0 (x2)\n\
    2 BadShape|.segment 0x10000 rx 64|ld x1, 0()\n\
    2 BadShape|.segment 0x10000 rx 64|.word 1, 2\n\
    2 BadShape|.segment 0x10000 rx 64|.word\n\
    1 BadShape|.segment 0x10000 xr 64\n\
    1 BadShape|.segment 0x10000 64\n\
    1 BadShape|.segment 0x10000 - 64\n\
    1 BadShape|.entry 1a\n\
    1 BadShape|.entry\n\
    2 BadNumber|.segment 0x10000 rx 64|addi x1, x0, 01\n\
    2 BadNumber|.segment 0x10000 rx 64|addi x1, x0, 0x\n\
    2 BadNumber|.segment 0x10000 rx 64|addi x1, x0, 0X1\n\
    2 BadNumber|.segment 0x10000 rx 64|addi x1, x0, 0xg\n\
    3 BadNumber|.segment 0x10000 rx 64|ecall|addi x1, x0, -0x1g\n\
    2 BadNumber|.segment 0x10000 rx 64|addi x1, x0, +1\n\
    2 BadNumber|.segment 0x10000 rx 64|addi x1, x0, --1\n\
    2 BadNumber|.segment 0x10000 rx 64|addi x1, x0, -\n\
    2 BadNumber|.segment 0x10000 rx 64|addi x1, x0, a\n\
    2 BadNumber|.segment 0x10000 rx 64|jal x0, 1a\n\
    2 BadNumber|.segment 0x10000 rx 64|.word 1,2\n\
    1 BadNumber|.segment -1 rx q\n\
    2 OutOfRange|.segment 0x10000 rx 64|addi x1, x0, 2048\n\
    2 OutOfRange|.segment 0x10000 rx 64|addi x1, x0, -2049\n\
    2 OutOfRange|.segment 0x10000 rx 64|addi x1, x0, 99999999999999999999999\n\
    2 OutOfRange|.segment 0x10000 rx 64|slli x1, x0, 64\n\
    2 OutOfRange|.segment 0x10000 rx 64|slliw x1, x0, 32\n\
    2 OutOfRange|.segment 0x10000 rx 64|lui x1, 1048576\n\
    2 OutOfRange|.segment 0x10000 rx 64|lui x1, -1\n\
    2 OutOfRange|.segment 0x10000 rx 64|fence x0, x0, 4096\n\
    2 OutOfRange|.segment 0x10000 rx 64|ld x1, 2048(x2)\n\
    2 OutOfRange|.segment 0x10000 rx 64|beq x0, x0, 4096\n\
    2 OutOfRange|.segment 0x10000 rx 64|beq x0, x0, -4098\n\
    2 OutOfRange|.segment 0x10000 rx 64|beq x0, x0, 3\n\
    2 OutOfRange|.segment 0x10000 rx 64|jal x0, 1048576\n\
    2 OutOfRange|.segment 0x10000 rx 64|jal x0, -1048578\n\
    2 OutOfRange|.segment 0x10000 rx 64|.byte 256\n\
    2 OutOfRange|.segment 0x10000 rx 64|.byte -129\n\
    2 OutOfRange|.segment 0x10000 rx 64|.word 4294967296\n\
    2 OutOfRange|.segment 0x10000 rx 64|.word -2147483649\n\
    2 OutOfRange|.segment 0x10000 rx 64|.zero -1\n\
    2 OutOfRange|.segment 0x10000 rx 64|.zero 65\n\
    4 OutOfRange|.segment 0x10000 rx 64|.zero 62||.word 1\n\
    1 OutOfRange|.segment 0x10000 rx 0\n\
    1 OutOfRange|.segment -1 rx 64\n\
    1 OutOfRange|.segment 18446744073709551616 rx 64\n\
    1 OutOfRange|.segment 0 rx 18446744073709551616\n\
    1 BadShape|.segment 0x10000 rx 18446744073709551615\n\
    1 BadShape|.segment 0x10000 rx 0xffffffffffffffff\n\
    5 OutOfRange|.segment 0x10000 rx 64|.byte 0|a:|.byte 0|beq x0, x0, a\n\
    4 TwiceDefined|.segment 0x10000 rx 64|a:|ecall|a:\n\
    3 TwiceDefined|.segment 0x10000 rx 64|.entry a|.entry a\n\
    2 Undefined|.segment 0x10000 rx 64|jal x0, there\n\
    1 Undefined|.entry there|.segment 0x10000 rx 64|jal x0, there\n\
    3 OutOfRange|.segment 0x10000 rx 64|jal x0, there|addi x1, x0, 2048\n\
    2 OutOfRange|.segment 0x10000 rx 8000|beq x0, x0, a|.zero 4092|a:\n\
    4 UnknownName|.segment 0x10000 rx 8000|beq x0, x0, a|.zero 4092|foo|a:\n\
    2 OutOfRange|.segment 0x10000 rx 8000|beq x0, x0, a|.zero 4092|a:|foo\n\
    1 BadShape|\n\
    2 BadShape|||\n\
    1 BadShape|# nothing\n\
    2 BadShape|.segment 0x10000 rw 64|# data alone|\n\
    1 BadShape|.segment 0 rx 64|\n\
    2 BadShape|.segment 0x10000 rx 64|.segment 0x1003f rx 1\n\
    1 BadShape|.segment 0x10002 rx 64\n\
    2 BadNumber|.segment 0x10000 rx 64|addi x1, x0, 0xG\n\
    2 BadNumber|.segment 0x10000 rx 64|addi x1, x0, 0x@\n\
    2 BadNumber|.segment 0x10000 rx 64|addi x1, x0, 0x`\n\
    2 BadNumber|.segment 0x10000 rx 64|addi x1, x0, 0x/\n\
    2 BadNumber|.segment 0x10000 rx 64|addi x1, x0, 0x:\n\
    2 BadNumber|.segment 0x10000 rx 64|addi x1, x0, 1:\n\
    2 BadNumber|.segment 0x10000 rx 64|addi x1, x0, 1/\n\
    2 BadShape|.segment 0x10000 rx 64|a[:\n\
    2 BadShape|.segment 0x10000 rx 64|a@:\n\
    2 BadShape|.segment 0x10000 rx 64|a{:\n\
    2 BadShape|.segment 0x10000 rx 64|a`:\n\
    2 BadShape|.segment 0x10000 rx 64|a/:\n\
    2 BadShape|.segment 0x10000 rx 64|a::\n\
    ok|.segment 0x10000 rx 64|azAZ09_:|_:|Z:\n\
    1 BadShape|.segment 0x10000 wr 64\n\
    1 BadShape|.segment 0x10000 xw 64\n\
    1 BadShape|.segment 0x10000 xx 64\n\
    1 BadShape|.segment 0x10000 RX 64\n\
    2 Undefined|.segment 0x10000 rx 64|jal x0, a|.entry b\n\
    3 Undefined|.segment 0x10000 rx 64|ecall|.entry b|jal x0, a\n\
    3 BadShape|.segment 0x10000 rw 64|.segment 0x20000 rx 64|ecall\n\
    2 BadShape|.segment 0x10000 rx 18446744073709551615|.zero 18446744073709551615\n\
    2 OutOfRange|.segment 0x10000 rx 18446744073709551615|.zero 18446744073709551616\n\
    3 OutOfRange|.segment 0x10000 rx 18446744073709551615|.zero 18446744073709551615|.byte 0\n\
    ok|.segment 0x10000 rx 2000000|jal x0, a|.zero 1048570|a:|ecall\n\
    2 OutOfRange|.segment 0x10000 rx 2000000|jal x0, a|.zero 1048572|a:|ecall\n\
    ok|.segment 0x10000 rx 2000000|a:|.zero 1048576|jal x0, a\n\
    4 OutOfRange|.segment 0x10000 rx 2000000|a:|.zero 1048578|jal x0, a\n\
    ok|.segment 0x10000 rx 64|srli x1, x0, 63\n\
    2 OutOfRange|.segment 0x10000 rx 64|srli x1, x0, 64\n\
    ok|.segment 0x10000 rx 64|srai x1, x0, 63\n\
    2 OutOfRange|.segment 0x10000 rx 64|srai x1, x0, 64\n\
    ok|.segment 0x10000 rx 64|slliw x1, x0, 31\n\
    2 OutOfRange|.segment 0x10000 rx 64|srliw x1, x0, 32\n\
    ok|.segment 0x10000 rx 64|sraiw x1, x0, 31\n\
    2 OutOfRange|.segment 0x10000 rx 64|sraiw x1, x0, 32\n\
    ok|.segment 0x10000 rx 64|slti x1, x0, 2047|slti x1, x0, -2048\n\
    2 OutOfRange|.segment 0x10000 rx 64|slti x1, x0, 2048\n\
    2 OutOfRange|.segment 0x10000 rx 64|slti x1, x0, -2049\n\
    ok|.segment 0x10000 rx 64|sltiu x1, x0, 2047|sltiu x1, x0, -2048\n\
    2 OutOfRange|.segment 0x10000 rx 64|sltiu x1, x0, 2048\n\
    2 OutOfRange|.segment 0x10000 rx 64|sltiu x1, x0, -2049\n\
    ok|.segment 0x10000 rx 64|xori x1, x0, 2047|xori x1, x0, -2048\n\
    2 OutOfRange|.segment 0x10000 rx 64|xori x1, x0, 2048\n\
    2 OutOfRange|.segment 0x10000 rx 64|xori x1, x0, -2049\n\
    ok|.segment 0x10000 rx 64|ori x1, x0, 2047|ori x1, x0, -2048\n\
    2 OutOfRange|.segment 0x10000 rx 64|ori x1, x0, 2048\n\
    2 OutOfRange|.segment 0x10000 rx 64|ori x1, x0, -2049\n\
    ok|.segment 0x10000 rx 64|andi x1, x0, 2047|andi x1, x0, -2048\n\
    2 OutOfRange|.segment 0x10000 rx 64|andi x1, x0, 2048\n\
    2 OutOfRange|.segment 0x10000 rx 64|andi x1, x0, -2049\n\
    ok|.segment 0x10000 rx 64|addiw x1, x0, 2047|addiw x1, x0, -2048\n\
    2 OutOfRange|.segment 0x10000 rx 64|addiw x1, x0, 2048\n\
    2 OutOfRange|.segment 0x10000 rx 64|addiw x1, x0, -2049\n\
    ok|.segment 0x10000 rx 64|addi x1, x0, 2047\n\
    ok|.segment 0x10000 rx 64|addi x1, x0, -2048\n\
    ok|.segment 0x10000 rx 64|addi x1, x0, 0x7fF\n\
    ok|.segment 0x10000 rx 64|addi x1, x0, -0x800\n\
    ok|.segment 0x10000 rx 64|slli x1, x0, 63\n\
    2 OutOfRange|.segment 0x10000 rx 64|slli x1, x0, -1\n\
    ok|.segment 0x10000 rx 64|srliw x1, x0, 31\n\
    ok|.segment 0x10000 rx 64|lui x1, 1048575\n\
    ok|.segment 0x10000 rx 64|auipc x31, 0\n\
    2 OutOfRange|.segment 0x10000 rx 64|auipc x1, 1048576\n\
    ok|.segment 0x10000 rx 64|fence x0, x0, 4095\n\
    2 OutOfRange|.segment 0x10000 rx 64|fence x0, x0, -1\n\
    ok|.segment 0x10000 rx 64|sd x1, -2048(sp)\n\
    2 OutOfRange|.segment 0x10000 rx 64|sd x1, -2049(sp)\n\
    ok|.segment 0x10000 rx 64|jalr ra, 2047(t0)\n\
    2 OutOfRange|.segment 0x10000 rx 64|jalr ra, 2048(t0)\n\
    ok|.segment 0x10000 rx 64|beq x0, x0, 4094\n\
    ok|.segment 0x10000 rx 64|beq x0, x0, -4096\n\
    ok|.segment 0x10000 rx 64|jal x0, 1048574\n\
    ok|.segment 0x10000 rx 64|jal x0, -1048576\n\
    2 OutOfRange|.segment 0x10000 rx 64|jal x0, 1\n\
    ok|.segment 0x10000 rx 64|.byte 255|.byte -128\n\
    ok|.segment 0x10000 rx 64|.word 4294967295|.word -2147483648\n\
    ok|.segment 0x10000 rx 64|.zero 64\n\
    ok|.segment 0x10000 rx 64|.zero 0\n\
    ok|.segment 0x10000 rx 0x1000000|.zero 16777096\n\
    2 BadShape|.segment 0x10000 rx 0x1000000|.zero 16777097\n\
    ok|.segment 0x1000 x 1\n\
    ok|.segment 0x1000 x 4|.segment 0x3fbfffffff x 1\n\
    1 BadShape|.segment 0x3fc0000000 x 4\n\
    1 BadShape|.segment 0xfff x 1\n\
    1 BadShape|.segment 18446744073709551615 x 4\n\
    1 OutOfRange|.segment 0x10000000000000000 x 4\n\
    ok|.segment 0x10000 rx 100000000000\n\
    1 BadShape|.segment 0x10000 rx 300000000000\n\
    ok|.segment 0x10000 rx 8000|beq x0, x0, a|.zero 4090|a:|ecall\n\
    2 OutOfRange|.segment 0x10000 rx 8000|beq x0, x0, a|.zero 4092|a:|ecall\n\
    ok|.segment 0x10000 rx 8000|a:|.zero 4096|beq x0, x0, a\n\
    4 OutOfRange|.segment 0x10000 rx 8000|a:|.zero 4098|beq x0, x0, a\n\
    ok|.segment 0x10000 rx 64|jal x0, a|a:\n\
    ok|.segment 0x10000 rx 64|_a1Z:|jal x0, _a1Z\n\
    ok|.entry b|.segment 0x10000 rx 64|ecall|b:|ecall\n\
    1 Undefined|.entry b|.segment 0x10000 rx 64|ecall\n\
    3 Undefined|.segment 0x10000 rx 64|ecall|jal x0, b\n\
    3 TwiceDefined|.segment 0x10000 rx 64|a:|a:\n\
    ok|.segment 0x10000 rx 64|a:|b:|jal x0, a|jal x0, b\n\
    2 BadShape|.segment 0x10000 r 8|ecall\n\
    4 BadShape|.entry a|.segment 0x10000 rx 8|.byte 0|a:\n\
    ok|   .segment   0x10000   rx   64   # code|   addi   x1 ,x0,   1#one|#|  # two|\n\
    2 UnknownName|.segment 0x10000 rx 64|\tecall\n\
    2 UnknownName|.segment 0x10000 rx 64|ecall\r\n\
    2 BadShape|.segment 0x10000 rx 64|ecall \t\n\
    2 BadShape|.segment 0x10000 rx 64|ecall x\n\
    2 UnknownName|.segment 0x10000 rx 64|addi x1, \tx0, 1\n\
    ok|.segment 0x10000 rx 64|ecall # \u{e9}|\n\
    2 UnknownName|.segment 0x10000 rx 64|\u{e9}\n\
    2 BadShape|.segment 0x10000 rx 64|\u{e9}:\n";
