//! Small programs, whose words an assembler made, and what they do. What each of them does was
//! worked out by hand from the descriptions of the instructions and the hypercalls.

/// The table. A line has a command, and after ` | ` what it tells.
///
/// - `new FLAGS PACKET WORDS` is a program of its own: the flags of its page, the bytes of the
///   packet that comes in, in hexadecimal, or `empty` or `none`, and its words.
/// - `run` goes on to a stop, and tells why it stopped; then how many instructions were counted,
///   and how many packets, bytes of packets and console bytes were written. An exception has its
///   cause, and in hexadecimal its address and trap value.
/// - `go TRIGGER BUDGET PAUSE` goes on within limits, and tells the same. The trigger is so many
///   bytes into the program. A dash is no trigger, no pause or more instructions than there are.
/// - `begin PACKET` gives the next packet, and counts anew.
/// - `hart` tells whether the hart rests, its program counter, and its registers that aren't 0.
/// - `ports` tells whether a packet is queued, the console bytes, and each packet that was written.
/// - `load ADDRESS` tells the number of four bytes.
///
/// A line that begins with # is a remark.
pub const LINES: &str = "\
# A target that is no multiple of 4.
new 5 none 00300293 000280e7 | made
run | exception 0 10004 2 | 1 0 0 0
# Words that are no instruction, the first a CSRRW.
new 5 none 30001073 | made
run | exception 2 10000 30001073 | 0 0 0 0
new 5 none 00100413 00000000 | made
run | exception 2 10004 0 | 1 0 0 0
# EBREAK, and a hypercall that there isn't.
new 5 none 00100073 | made
run | exception 3 10000 10000 | 0 0 0 0
new 5 none 06300893 00000073 | made
run | exception 8 10004 63 | 1 0 0 0
# The jump to the next page is done, and no word can be fetched there; nor on a page that isn't
# executable.
new 5 none 0000106f | made
run | exception 12 11000 11000 | 1 0 0 0
new 6 none 0000106f | made
run | exception 12 10000 10000 | 0 0 0 0
# Loads from address 0, from 2^64 - 4 and on, from the stack's end, and from below the stack.
new 5 none 00003503 | made
run | exception 13 10000 0 | 0 0 0 0
new 5 none ffc00293 0002b503 | made
run | exception 13 10004 0 | 1 0 0 0
new 5 none 00014503 | made
run | exception 13 10000 4000000000 | 0 0 0 0
new 5 none 000102b7 405102b3 fff2c503 | made
run | exception 13 10008 3ffffeffff | 2 0 0 0
# Stores to the byte below the stack, and to the last four bytes of a page and on.
new 5 none 000102b7 405102b3 fea28fa3 | made
run | exception 15 10008 3ffffeffff | 2 0 0 0
new 7 none 00100413 01041413 fff00293 7ff40413 7fd40413 00543023 | made
run | exception 15 10014 11000 | 5 0 0 0
# The low byte of the stack's lowest address, a multiple of 256, is stored there and loaded.
new 5 none 000102b7 405102b3 00528023 0002c503 00800893 00000073 | made
run | halt 0 | 6 0 0 0
# The stack pointer, the clock, a wait where a packet is queued or none is, and a fence.
new 5 none 00010513 00800893 00000073 | made
run | halt 4000000000 | 3 0 0 0
new 5 none 00100893 00000073 00800893 00000073 | made
run | halt 17979cfe3d85cd15 | 4 0 0 0
new 5 empty 00300893 00000073 00800893 00000073 | made
run | halt 1 | 4 0 0 0
new 5 none 00300893 00000073 00800893 00000073 | made
run | rest | 2 0 0 0
new 5 none 0ff0000f 00000513 00800893 00000073 | made
run | halt 0 | 4 0 0 0
# A net read without room, of no packet, of one with a byte and of an empty one; then one with
# room for 1 byte and again for 2.
new 5 none 00000513 00000593 00700893 00000073 00800893 00000073 | made
run | halt 1 | 6 0 0 0
new 5 01 00000513 00000593 00700893 00000073 00800893 00000073 | made
run | halt 2 | 6 0 0 0
new 5 empty 00000513 00000593 00700893 00000073 00800893 00000073 | made
run | halt 0 | 6 0 0 0
new 7 01,02 00100413 01041413 10040513 00100593 00700893 00000073 00050493 10040513 00200593 \
00000073 10040513 00600893 00000073 00048513 00800893 00000073 | made
run | halt 2 | 16 1 2 0
# Empty packets up to the one that is refused, and a packet of 32,769 bytes.
new 5 none 00000513 00600893 00000073 fe050ae3 00800893 00000073 | made
run | halt 2 | 262 64 0 0
new 5 none 000085b7 00158593 40b10533 00600893 00000073 00800893 00000073 | made
run | halt 2 | 7 0 0 0
# Two packets of 32,768 bytes, and then one of 1 byte, or of none.
new 5 none 00008437 408104b3 00048513 00040593 00600893 00000073 00048513 00000073 00048513 \
00100593 00000073 00800893 00000073 | made
run | halt 2 | 13 2 65536 0
new 5 none 00008437 408104b3 00048513 00040593 00600893 00000073 00048513 00000073 00048513 \
00000593 00000073 00800893 00000073 | made
run | halt 0 | 13 3 65536 0
# 4,096 console bytes and then 1, and 4,097 at once.
new 5 none 00020437 000015b7 00040513 00200893 00000073 00040513 00100593 00000073 00800893 \
00000073 | made
run | halt 2 | 10 0 0 4096
new 5 none 00020537 000015b7 00158593 00200893 00000073 00800893 00000073 | made
run | halt 2 | 7 0 0 0
# An operation on a0, which is -9, after a write of x0: ADDI, SLTI, SLTIU, XORI, ORI, ANDI, SLLI,
# SRLI, SRAI, and ADDI of x0.
new 5 none ff700513 00500013 ffe50513 00800893 00000073 | made
run | halt fffffffffffffff5 | 5 0 0 0
new 5 none ff700513 00500013 ff852513 00800893 00000073 | made
run | halt 1 | 5 0 0 0
new 5 none ff700513 00500013 00853513 00800893 00000073 | made
run | halt 0 | 5 0 0 0
new 5 none ff700513 00500013 05554513 00800893 00000073 | made
run | halt ffffffffffffffa2 | 5 0 0 0
new 5 none ff700513 00500013 00f56513 00800893 00000073 | made
run | halt ffffffffffffffff | 5 0 0 0
new 5 none ff700513 00500013 01f57513 00800893 00000073 | made
run | halt 17 | 5 0 0 0
new 5 none ff700513 00500013 03c51513 00800893 00000073 | made
run | halt 7000000000000000 | 5 0 0 0
new 5 none ff700513 00500013 03c55513 00800893 00000073 | made
run | halt f | 5 0 0 0
new 5 none ff700513 00500013 40255513 00800893 00000073 | made
run | halt fffffffffffffffd | 5 0 0 0
new 5 none ff700513 00500013 00000513 00800893 00000073 | made
run | halt 0 | 5 0 0 0
# Reads a packet of at most 1,024 bytes and writes it, with the size that a1 has then. None is
# queued: the size stays as it was.
new 7 01,02 00100413 01041413 10040513 40000593 00700893 00000073 10040513 00600893 00000073 \
00000513 00800893 00000073 | made
run | halt 0 | 12 1 2 0
new 7 empty 00100413 01041413 10040513 40000593 00700893 00000073 10040513 00600893 00000073 \
00000513 00800893 00000073 | made
run | halt 0 | 12 1 0 0
new 7 none 00100413 01041413 10040513 40000593 00700893 00000073 10040513 00600893 00000073 \
00000513 00800893 00000073 | made
run | halt 0 | 12 1 1024 0
# What may be written may be read. On a page that may only be read, the read of the packet is
# refused, and on one that may only be executed the write too.
new 3 01,02 00100413 01041413 10040513 40000593 00700893 00000073 10040513 00600893 00000073 \
00000513 00800893 00000073 | made
run | halt 0 | 12 1 2 0
new 5 01,02 00100413 01041413 10040513 40000593 00700893 00000073 10040513 00600893 00000073 \
00000513 00800893 00000073 | made
run | halt 0 | 12 1 1024 0
new 1 01,02 00100413 01041413 10040513 40000593 00700893 00000073 10040513 00600893 00000073 \
00000513 00800893 00000073 | made
run | halt 0 | 12 0 0 0
# ---- limits: the trigger, the budget, the pause
new 7 none ECHO | made
go 8 - - | Trigger | 2 0 0 0
new 7 none ECHO | made
go - 3 - | Budget | 3 0 0 0
new 7 none ECHO | made
go - 0 - | Budget | 0 0 0 0
# The trigger goes before the budget, and waits for one instruction.
new 7 none ECHO | made
go 12 3 - | Trigger | 3 0 0 0
new 7 none ECHO | made
go 0 - - | halt 0 | 12 1 1024 0
# The budget goes before what the next instruction does.
new 7 none ECHO | made
go - 11 - | Budget | 11 1 1024 0
new 7 none ECHO | made
go - 12 - | halt 0 | 12 1 1024 0
# Both go before the pause, and the pause before what the next instruction does.
new 7 none ECHO | made
go 8 - 2 | Trigger | 2 0 0 0
new 7 none ECHO | made
go 12 3 3 | Trigger | 3 0 0 0
new 7 none ECHO | made
go - 3 3 | Budget | 3 0 0 0
new 7 none ECHO | made
go - 0 0 | Budget | 0 0 0 0
new 7 none ECHO | made
go - 3 2 | Paused | 2 0 0 0
new 7 none ECHO | made
go - 3 4 | Budget | 3 0 0 0
new 7 none ECHO | made
go 0 - 0 | Paused | 0 0 0 0
new 7 none ECHO | made
go - - 11 | Paused | 11 1 1024 0
new 7 none ECHO | made
go - - 12 | halt 0 | 12 1 1024 0
new 7 none ECHO | made
go - - 18446744073709551615 | halt 0 | 12 1 1024 0
# A jump to itself, in parts: each pauses after its instructions, and the last meets the budget.
new 5 none 0000006f | made
go - 100 40 | Paused | 40 0 0 0
hart | false 10000 x2=4000000000
go - 100 40 | Paused | 80 0 0 0
hart | false 10000 x2=4000000000
go - 100 40 | Budget | 100 0 0 0
hart | false 10000 x2=4000000000
# ---- bytes of memory
# Writes the two bytes after it to the console.
new 7 none 00000517 01c50513 00200593 00200893 00000073 00800893 00000073 00006968 | made
run | halt 0 | 7 0 0 2
ports | false [104, 105]
# Adds up the first bytes of the packets, and answers each packet with the low byte of the sum,
# until it waits.
new 7 05 00020437 00043023 00300893 00000073 01040513 04000593 00700893 00000073 00043283 01044303 \
006282b3 00543023 00040513 00100593 00600893 00000073 fc9ff06f | made
run | rest | 19 1 1 0
ports | false [] [5]
new 7 empty 00020437 00043023 00300893 00000073 01040513 04000593 00700893 00000073 00043283 \
01044303 006282b3 00543023 00040513 00100593 00600893 00000073 fc9ff06f | made
run | rest | 19 1 1 0
ports | false [] [0]
new 7 01,02,ff ECHO | made
run | halt 0 | 12 1 3 0
ports | false [] [1, 2, 255]
# ---- traps change nothing, however often they are met
# Stores ones to the last four bytes of its page and the four after it, which aren't there.
new 7 none 00100413 01041413 fff00293 7ff40413 7fd40413 00543023 | made
go - 5 - | Budget | 5 0 0 0
hart | false 10014 x2=4000000000 x5=ffffffffffffffff x8=10ffc
run | exception 15 10014 11000 | 5 0 0 0
hart | false 10014 x2=4000000000 x5=ffffffffffffffff x8=10ffc
load 10ffc | 0
run | exception 15 10014 11000 | 5 0 0 0
hart | false 10014 x2=4000000000 x5=ffffffffffffffff x8=10ffc
load 10ffc | 0
# Stores ones to the four bytes below the data page, which aren't there, and its first four.
new 7 none 00020437 fff00293 fe543e23 | made
go - 2 - | Budget | 2 0 0 0
hart | false 10008 x2=4000000000 x5=ffffffffffffffff x8=20000
run | exception 15 10008 1fffc | 2 0 0 0
hart | false 10008 x2=4000000000 x5=ffffffffffffffff x8=20000
load 20000 | 0
run | exception 15 10008 1fffc | 2 0 0 0
hart | false 10008 x2=4000000000 x5=ffffffffffffffff x8=20000
load 20000 | 0
# ---- packets stay queued, and wake
# A packet for which there is no room stays, and one of no bytes is read.
new 5 01 00000513 00000593 00700893 00000073 00800893 00000073 | made
run | halt 2 | 6 0 0 0
ports | true []
new 5 empty 00000513 00000593 00700893 00000073 00800893 00000073 | made
run | halt 0 | 6 0 0 0
ports | false []
# A wait doesn't take the packet that it finds.
new 5 01 00300893 00000073 00800893 00000073 | made
run | halt 1 | 4 0 0 0
ports | true []
hart | false 10010 x2=4000000000 x10=1 x17=8
# At rest it stays so until a packet comes. Then the wait ends, and 15 instructions later the next
# one rests.
new 7 05 00020437 00043023 00300893 00000073 01040513 04000593 00700893 00000073 00043283 01044303 \
006282b3 00543023 00040513 00100593 00600893 00000073 fc9ff06f | made
run | rest | 19 1 1 0
hart | true 10010 x2=4000000000 x5=5 x6=5 x8=20000 x11=1 x17=3
run | rest | 19 1 1 0
hart | true 10010 x2=4000000000 x5=5 x6=5 x8=20000 x11=1 x17=3
begin 07 | given
go - 0 - | Budget | 0 0 0 0
hart | false 10010 x2=4000000000 x5=5 x6=5 x8=20000 x10=1 x11=1 x17=3
run | rest | 15 1 1 0
ports | false [] [12]
";
