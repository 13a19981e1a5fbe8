//! Worked layers and replies.

ghost use Rattle.std.specs.Prelude.{◌∷◌, [], None, Some};
ghost use Rattle.layer_model.specs.Replies.{IsReply, NoLayer, Ran};
ghost use Rattle.layer_model_tests.specs.Plans as plans;
ghost use Rattle.layer_model_tests.specs.Shown.{LayerShows, NoLayerShows};
ghost use Rattle.machine_model.specs.declared.stop.Stop.TheVariants.{Rest, Budget, Halt, Exception};

/// Three layers, one on the other, of which each but the lowest read a packet; a layer that was
/// given two packets and read one; one whose trigger is where its program begins; one that wrote
/// to the console; and one on the second image.
fn layers_are_there()
    ensures lowest { LayerShows plans.three 0 2 65544 (0 ∷ 0 ∷ 0 ∷ 0 ∷ 0 ∷ 0 ∷ 0 ∷ 0 ∷ []) }
    ensures middle { LayerShows plans.three 1 15 65544 (1 ∷ 0 ∷ 0 ∷ 0 ∷ 0 ∷ 0 ∷ 0 ∷ 0 ∷ []) }
    ensures highest { LayerShows plans.three 2 15 65544 (3 ∷ 0 ∷ 0 ∷ 0 ∷ 0 ∷ 0 ∷ 0 ∷ 0 ∷ []) }
    ensures unread { LayerShows plans.unread 1 15 65544 (1 ∷ 0 ∷ 0 ∷ 0 ∷ 0 ∷ 0 ∷ 0 ∷ 0 ∷ []) }
    ensures round { LayerShows plans.round 0 1 65536 (0 ∷ 0 ∷ 0 ∷ 0 ∷ 0 ∷ 0 ∷ 0 ∷ 0 ∷ []) }
    ensures printed { LayerShows plans.printed 0 5 65556 (0 ∷ 0 ∷ 0 ∷ 0 ∷ 0 ∷ 0 ∷ 0 ∷ 0 ∷ []) }
    ensures second { LayerShows plans.two 1 1 65536 (0 ∷ 0 ∷ 0 ∷ 0 ∷ 0 ∷ 0 ∷ 0 ∷ 0 ∷ []) }
{}

/// Runs of layers that rest, come to the end of their budget, halt, meet no instruction, and halt
/// with what the clock shows, before they come to their trigger.
fn layers_are_not_there()
    ensures rests { NoLayerShows plans.resting 1 17 Rest }
    ensures spins { NoLayerShows plans.spinning 0 100 Budget }
    ensures halts { NoLayerShows plans.halting 0 3 (Halt 0) }
    ensures breaks { NoLayerShows plans.breaking 0 0 (Exception 2 65536 0) }
    ensures clock { NoLayerShows plans.halting_timed 0 5 (Halt 0) }
{}

/// The first request of a context and its second; one after a packet that its layer didn't read;
/// one that halts with what its clock shows; budgets that end a request, or just don't; one that
/// writes to the console; and those of two functions on two images.
fn requests_are_answered()
    ensures first { IsReply plans.three 0 (Some 2) [] (plans.given 3 0) (record {
      ending = Ran Rest;
      number = 17;
      packets = (6 ∷ []) ∷ [];
      console = [];
    }) }
    ensures second { IsReply plans.three 0 (Some 2) (plans.given 3 0 ∷ []) (plans.given 4 0)
        (record {
          ending = Ran Rest;
          number = 15;
          packets = (10 ∷ []) ∷ [];
          console = [];
        }) }
    ensures unread { IsReply plans.unread 0 (Some 1) [] (plans.given 3 0) (record {
      ending = Ran Rest;
      number = 17;
      packets = (4 ∷ []) ∷ [];
      console = [];
    }) }
    ensures clock { IsReply plans.timed 0 (Some 0) [] (plans.given 3 5) (record {
      ending = Ran (Halt 5);
      number = 4;
      packets = [];
      console = [];
    }) }
    ensures short { IsReply plans.short 0 (Some 0) [] (plans.given 1 0) (record {
      ending = Ran Budget;
      number = 16;
      packets = (1 ∷ []) ∷ [];
      console = [];
    }) }
    ensures enough { IsReply plans.enough 0 (Some 0) [] (plans.given 1 0) (record {
      ending = Ran Rest;
      number = 17;
      packets = (1 ∷ []) ∷ [];
      console = [];
    }) }
    ensures console { IsReply plans.printing 0 (Some 0) [] (plans.given 3 0) (record {
      ending = Ran (Halt 0);
      number = 6;
      packets = [];
      console = 19 ∷ 0 ∷ [];
    }) }
    ensures lower { IsReply plans.two 0 (Some 0) [] (plans.given 1 0) (record {
      ending = Ran Rest;
      number = 17;
      packets = (1 ∷ []) ∷ [];
      console = [];
    }) }
    ensures upper { IsReply plans.two 1 (Some 1) [] (plans.given 1 0) (record {
      ending = Ran Budget;
      number = 100;
      packets = [];
      console = [];
    }) }
{}

/// Requests whose contexts stand below a layer that isn't there: on the image, and on a layer.
fn requests_miss_a_layer()
    ensures image { IsReply plans.spinning 0 None [] (plans.given 3 0) (record {
      ending = NoLayer 0 Budget;
      number = 0;
      packets = [];
      console = [];
    }) }
    ensures layer { IsReply plans.resting 0 (Some 0) (plans.given 3 0 ∷ []) (plans.given 3 0)
        (record {
          ending = NoLayer 1 Rest;
          number = 0;
          packets = [];
          console = [];
        }) }
{}

#[test]
fn the_definitions_give_what_was_worked_out() {
    layers_are_there();
    layers_are_not_there();
    requests_are_answered();
    requests_miss_a_layer();
}
