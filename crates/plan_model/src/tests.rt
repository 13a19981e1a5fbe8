//! The public calls, each once. `Plan` is made and shown in the tests of `plan_text`.

use super::*;
use std::test::Fail;

#[test]
fn texts_and_lists_show_what_they_are(rt: HostRuntime) -> Result<(), Fail> {
    let alloc = rt.alloc();
    let text = Text::copy_of(alloc, "sum")?;
    assert_eq!(rt; text.as_str(), "sum");
    assert_eq!(rt; text.into_string().as_str(), "sum");
    let name = Text::from_string(String::from_str(alloc, "low")?);
    let names = Names::from_vec(vec![in alloc; name]?);
    assert_eq!(rt; names.as_slice().len(), 1);
    if let Some(packet) = Packet::new(vec![in alloc; 1, 2]?) {
        let packets = Packets::from_vec(vec![in alloc; packet]?);
        assert_eq!(rt; packets.as_slice().len(), 1);
        assert_eq!(rt; packets.into_vec().len(), 1);
    }
    Ok(())
}
