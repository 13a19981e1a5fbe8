use super::*;
use machine_model::Packet;
use std::test::Fail;

#[test]
fn packets_and_stacks_show_what_they_hold(rt: HostRuntime) -> Result<(), Fail> {
    let alloc = rt.alloc();
    assert!(rt; Packets::none(alloc).as_slice().is_empty());
    let packet = Packet::new(vec![in alloc; 7, 8]?).ok_or("two bytes are a packet")?;
    let packets = Packets::new(vec![in alloc; packet]?);
    assert_eq!(rt; packets.as_slice().len(), 1);
    for packet in packets.into_vec() {
        assert_eq!(rt; packet.bytes(), [7, 8].as_slice());
    }
    let stack = FunctionStack {
        start: 0,
        layers: vec![in alloc; 3, 4]?,
    };
    assert_eq!(rt; stack.layers(), [3, 4].as_slice());
    Ok(())
}
