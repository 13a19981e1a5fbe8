//! Books of small plans over copied pages. Sizes are read off the plans' texts by hand.

ghost use Rattle.std.specs.Prelude.{◌≡◌, ◌≤◌, IfSome};
ghost use Rattle.book_model.specs.Kept.{most_requests};

use crate::{Opened, open_and_close, play_first};
use edge_files::MemFiles;
use journal_model::{Event, FunctionStack};
use machine_model::Packet;
use plain_space::{PlainShelf, PlainStore};
use plan_book::{Plan, Sizes, Started};
use plan_text::read_plan;
use space_api::{Given, Stock};
use std::alloc::Global;
use std::test::Fail;

/// Two images, a layer above the first of them, and three functions.
const SEVERAL: &str = "frames = 64\nworkers = 2\nidle = 3\nlayers = 9\nuses = 7\nclock = 5\n\
    [[layer]]\nname = \"a\"\nimage = \"a.elf\"\ntrigger = 65540\n\
    [[layer]]\nname = \"b\"\nimage = \"b.elf\"\ntrigger = 65540\n\
    [[layer]]\nname = \"c\"\nbelow = \"a\"\ntrigger = 65540\n\
    [[function]]\nname = \"top\"\nlayer = \"c\"\n\
    [[function]]\nname = \"other\"\nlayer = \"b\"\n\
    [[function]]\nname = \"low\"\nlayer = \"a\"\n";

/// One image, and nothing that may be left out.
const ONE: &str = "frames = 1\nworkers = 1\nidle = 0\nlayers = 1\n\
    [[layer]]\nname = \"a\"\nimage = \"a.elf\"\ntrigger = 65540\n";

/// The file of a program of three words at 0x10000, the first of which jumps to itself.
const ELF: &str = "\
    7f454c460201010000000000000000000200f30001000000000001000000000040000000000000000000\
    000000000000000000004000380001000000000000000100000005000000780000000000000000000100\
    0000000000000100000000000c0000000000000000100000000000000100000000000000\
    6f0000000000000000000000";

/// The plan of a text, with that file under both names.
fn plan_of(alloc: Global, text: &str) -> Option<Plan> {
    let mut files = MemFiles::new(alloc, Vec::new(alloc));
    let a = hex::decode(alloc, ELF.as_bytes()).ok()?;
    files.add("a.elf", a).ok()?;
    let b = hex::decode(alloc, ELF.as_bytes()).ok()?;
    files.add("b.elf", b).ok()?;
    read_plan(alloc, text.as_bytes(), &mut files).ok()
}

/// The plan of one image with so many functions.
fn plan_with(alloc: Global, functions: u16) -> Option<Plan> {
    let mut text = format!(in alloc; "{ONE}").ok()?;
    for number in 0..functions {
        let one = format!(in alloc; "[[function]]\nname = \"f{number}\"\nlayer = \"a\"\n").ok()?;
        text.push_str(one.as_str()).ok()?;
    }
    plan_of(alloc, text.as_str())
}

/// What is seen of a book of the plan over copied pages, for so many requests.
fn seen_of(alloc: Global, plan: &Plan, requests: u32) -> Option<Opened<PlainShelf>>
    requires { requests ≤ most_requests }
{
    plan.is_sound();
    let store = PlainStore::open(plan.starts()).ok()?;
    let shelf = PlainShelf::new(plan.numbers().frames);
    open_and_close(alloc, plan, &store, shelf, requests).ok()
}

/// Frames, root, idle, layers, uses and requests.
fn numbers_in(sizes: &Sizes) -> [u32; 6] {
    [
        sizes.frames,
        sizes.root,
        sizes.idle,
        sizes.layers,
        sizes.uses,
        sizes.requests,
    ]
}

/// Each stack, as its image and its layers.
fn stacks_text(alloc: Global, stacks: &[FunctionStack]) -> Option<String> {
    let mut text = String::new(alloc);
    for stack in stacks {
        let one = format!(in alloc; "{}{:?} ", stack.start, stack.layers()).ok()?;
        text.push_str(one.as_str()).ok()?;
    }
    Some(text)
}

/// What is left of a book that did nothing: its events, its requests, and its free frames.
fn left_in(opened: &Opened<PlainShelf>) -> (usize, usize, u32) {
    (
        opened.remains.events.len(),
        opened.remains.started.len(),
        opened.remains.shelf.free(),
    )
}

/// Numbers and clock of the book of several images, whether its stacks are right, and what is left
/// of it.
fn several(alloc: Global) -> Option<([u32; 6], Option<u64>, bool, (usize, usize, u32))> {
    let plan = plan_of(alloc, SEVERAL)?;
    let opened = seen_of(alloc, &plan, 3)?;
    let text = stacks_text(alloc, &opened.sizes.stacks)?;
    let right = text.as_str() == "0[0, 2] 1[1] 0[0] ";
    let clock = opened.sizes.clock;
    Some((numbers_in(&opened.sizes), clock, right, left_in(&opened)))
}

#[test]
fn a_book_has_the_plans_sizes(rt: HostRuntime) -> Result<(), Fail> {
    let expected = ([64, 0, 3, 9, 7, 3], Some(5), true, (0, 0, 64));
    assert_eq!(rt; several(rt.alloc()), Some(expected));
    Ok(())
}

/// The numbers of books of a plan of one image and so many functions, for no request and for 4,096,
/// and how many stacks they have.
fn smallest_and_largest(alloc: Global, functions: u16) -> Option<([u32; 6], [u32; 6], usize)> {
    let plan = plan_with(alloc, functions)?;
    let none = seen_of(alloc, &plan, 0)?;
    let all = seen_of(alloc, &plan, 4096)?;
    let stacks = all.sizes.stacks.len();
    Some((numbers_in(&none.sizes), numbers_in(&all.sizes), stacks))
}

#[test]
fn books_are_opened_at_the_limits(rt: HostRuntime) -> Result<(), Fail> {
    let none = [1, 0, 0, 1, 64, 0];
    let all = [1, 0, 0, 1, 64, 4096];
    let one = smallest_and_largest(rt.alloc(), 1);
    assert_eq!(rt; one, Some((none, all, 1)));
    let most = smallest_and_largest(rt.alloc(), 64);
    assert_eq!(rt; most, Some((none, all, 64)));
    Ok(())
}

/// The journal of a book whose first request, for the function 1, found no memory.
const JOURNAL: [Event; 2] = [Event::Start { i: 1, f: 1, t: 5 }, Event::Want { i: 1 }];

/// The function of the second image, with the empty packet.
fn first_request(alloc: Global, clock: u64) -> Option<Started>
    ensures { IfSome result (λ one. (one.function ≡ 1) × (one.given.clock ≡ clock)) }
{
    let packet = Packet::new(Vec::new(alloc))?;
    Some(Started {
        function: 1,
        given: Given { packet, clock },
    })
}

/// Whether a book whose first request found no memory has that journal, how many requests were
/// started, and the number of that one.
fn one_request(alloc: Global) -> Option<(bool, usize, u32)> {
    let plan = plan_of(alloc, SEVERAL)?;
    plan.is_sound();
    if plan.functions().len() < 2 {
        return None;
    }
    let store = PlainStore::open(plan.starts()).ok()?;
    let shelf = PlainShelf::new(plan.numbers().frames);
    let one = first_request(alloc, plan.numbers().clock)?;
    let played = play_first(alloc, &plan, &store, shelf, &one).ok()?;
    let right = played.remains.events.as_slice() == JOURNAL.as_slice();
    Some((right, played.remains.started.len(), played.request))
}

#[test]
fn a_journal_is_handed_out(rt: HostRuntime) -> Result<(), Fail> {
    assert_eq!(rt; one_request(rt.alloc()), Some((true, 1, 1)));
    Ok(())
}
