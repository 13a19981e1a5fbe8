//! What the types of a plan's parts keep, handed out. A function here changes nothing: its
//! contract is what is known of all such values.

ghost use Rattle.std.specs.Prelude.{All};
ghost use Rattle.machine_model.specs.Valid.{IsPacket};
ghost use Rattle.plan_model.specs.Outline.{IsStart};
ghost use Rattle.plan_model.specs.declared.layer.PlanLayer.{PlanLayer};

use crate::layer::PlanLayer;
use image_model::Start;
use machine_model::{Packet, packet_can_be_given, start_is_loadable};

/// A machine can be loaded with each start.
pub fn starts_can_be_loaded(starts: &[Start])
    ensures { All IsStart starts.now }
{
    'starts: for start in starts {
        start_is_loadable(start);
    }
}

/// A machine can be given the packets of each layer.
pub fn packets_can_be_given(layers: &[PlanLayer])
    ensures { All (λ (l : PlanLayer). All IsPacket l.packets) layers.now }
{
    'layers: for layer in layers {
        each_can_be_given(layer.packets.as_slice());
    }
}

/// A machine can be given each packet.
fn each_can_be_given(packets: &[Packet])
    ensures { All IsPacket packets.now }
{
    'packets: for packet in packets {
        packet_can_be_given(packet);
    }
}
