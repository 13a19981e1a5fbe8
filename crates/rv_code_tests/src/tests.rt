mod table;

use rv_code::{ImmOp, Inst, decode, encode, is_sound};
use std::test::Fail;

#[test]
fn words_of_an_assembler(rt: HostRuntime) -> Result<(), Fail> {
    for row in table::ROWS.lines() {
        let (digits, form) = row.split_once(' ').ok_or("no word")?;
        let word = u32::from_str_radix(digits, 16)?;
        let inst = decode(word).ok_or("no instruction")?;
        let printed = format!(in rt.alloc(); "{inst:?}")?;
        assert_eq!(rt; printed.as_str(), form, "at {word:#x}");
        assert!(rt; is_sound(&inst), "at {word:#x}");
        assert_eq!(rt; encode(&inst), word, "at {form}");
    }
    Ok(())
}

#[test]
fn words_of_no_row(rt: HostRuntime) {
    let shift = Inst::OpImm {
        op: ImmOp::Slli,
        rd: 8,
        rs1: 8,
        imm: 32,
    };
    assert_eq!(rt; decode(0x0204_1413), Some(shift));
    // SLLIW by 32, CSRRW, FENCE.I, and the words of all zeros and all ones
    for word in [0x0204_141b, 0x3000_1073, 0x0000_100f, 0, 0xffff_ffff] {
        assert_eq!(rt; decode(word), None, "at {word:#x}");
    }
    assert!(rt; !is_sound(&Inst::Lui { rd: 32, n: 0 }));
}
