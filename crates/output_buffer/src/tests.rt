use super::*;
use edge_streams::MemSink;
use std::test::Fail;

#[test]
fn a_front_part_goes_out(rt: HostRuntime) -> Result<(), Fail> {
    let alloc = rt.alloc();
    let mut sink = MemSink::in_pieces(alloc, 3, [2].to_vec(alloc)?);
    let mut buffer = Buffer::new();
    push(&mut sink, &mut buffer, b"abcd");
    push(&mut sink, &mut buffer, &[b'e'; ROOM]);
    push(&mut sink, &mut buffer, b"f");
    assert!(rt; flush(&mut sink, &mut buffer).is_err());
    assert_eq!(rt; sink.as_slice(), b"abc".as_slice());
    Ok(())
}

#[test]
fn pieces_are_printed(rt: HostRuntime) -> Result<(), Fail> {
    let alloc = rt.alloc();
    let mut sink = MemSink::new(alloc, [].to_vec(alloc)?);
    let mut buffer = Buffer::new();
    let numbers = [Piece::Number(70), Piece::Text(" "), Piece::Signed(-2048)];
    push_pieces(&mut sink, &mut buffer, &numbers);
    let word = Piece::Padded { n: 0xfed, width: 8 };
    push_pieces(&mut sink, &mut buffer, &[Piece::Hexadecimal(0x1af), word]);
    assert!(rt; flush(&mut sink, &mut buffer).is_ok());
    assert_eq!(rt; sink.as_slice(), b"70 -20481af00000fed".as_slice());
    Ok(())
}
