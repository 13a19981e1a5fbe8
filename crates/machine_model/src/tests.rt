use super::*;
use std::test::Fail;

#[test]
fn packets_have_a_limit(rt: HostRuntime) -> Result<(), Fail> {
    let alloc = rt.alloc();
    let largest = vec![in alloc; 7; 32_768]?;
    let Some(packet) = Packet::new(largest) else {
        return Err(Fail::from("32,768 bytes are a packet"));
    };
    assert_eq!(rt; packet.copy(alloc)?.bytes(), packet.bytes());
    assert!(rt; Packet::new(vec![in alloc; 7; 32_769]?).is_none());
    Ok(())
}
