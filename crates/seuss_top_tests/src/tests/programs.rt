//! Long programs: their texts are assembled, and the images that come of them run.

use super::{CALL, NONE, check, in_memory, run};
use std::alloc::AllocError;
use std::process::Abort;
use std::test::Fail;

/// Two instructions, 49,999,998 rounds of two, and two more: 49,999,998 is 4,096 * 12,207 + 126.
const SPENT: &str = ".segment 0x10000 rx 4096\nlui t0, 12207\naddi t0, t0, 126\nround:\n\
    addi t0, t0, -1\nbne t0, zero, round\naddi a7, zero, 8\necall\n";

/// One instruction more.
const OVERSPENT: &str = ".segment 0x10000 rx 4096\nlui t0, 12207\naddi t0, t0, 126\nround:\n\
    addi t0, t0, -1\nbne t0, zero, round\naddi zero, zero, 0\naddi a7, zero, 8\necall\n";

/// Writes n to the pages from 0x100000 on, n from 1,000 down to 1; copies each to the pages from
/// 0x500000 on, and writes it again, doubled. The code is the sum of n * (2 * n + n), which is
/// 3 * 333,833,500. It takes 4, 8 and 9 instructions a page, 3 before each loop and 2 at the end.
const PAGES: &str = ".segment 0x10000 rwx 0x8f0000\nlui t2, 1\nlui t0, 0x100\n\
    addi s1, zero, 1000\nwrite:\nsd s1, 0(t0)\nadd t0, t0, t2\naddi s1, s1, -1\n\
    bne s1, zero, write\nlui t0, 0x100\nlui t1, 0x500\naddi s1, zero, 1000\ncopy:\n\
    ld t3, 0(t0)\nsd t3, 0(t1)\nadd t3, t3, t3\nsd t3, 0(t0)\nadd t0, t0, t2\nadd t1, t1, t2\n\
    addi s1, s1, -1\nbne s1, zero, copy\nlui t0, 0x100\nlui t1, 0x500\naddi s1, zero, 1000\n\
    sum:\nld t3, 0(t0)\nld t4, 0(t1)\nadd t3, t3, t4\nmul t3, t3, s1\nadd a0, a0, t3\n\
    add t0, t0, t2\nadd t1, t1, t2\naddi s1, s1, -1\nbne s1, zero, sum\naddi a7, zero, 8\n\
    ecall\n";

/// The line of the run of a program's text.
fn runs_to<R: Abort + AllocGlobal>(rt: &R, text: &str, line: &str) -> Result<(), AllocError> {
    let mut world = in_memory(rt.alloc(), &[], text.as_bytes(), NONE)?;
    assert_eq!(rt; run(rt.alloc(), &["asm"], &mut world)?, 0);
    check(rt, CALL, world.sink.as_slice(), &[], NONE, (0, line, ""))
}

#[test]
fn writes_a_thousand_pages_and_copies_them(rt: HostRuntime) -> Result<(), Fail> {
    runs_to(&rt, PAGES, "halt:1001500500 21011 none -\n")?;
    Ok(())
}

/// The last instruction of the budget may be the one that halts.
#[test]
fn spends_the_whole_budget(rt: HostRuntime) -> Result<(), Fail> {
    runs_to(&rt, SPENT, "halt:0 100000000 none -\n")?;
    runs_to(&rt, OVERSPENT, "budget 100000000 none -\n")?;
    Ok(())
}
