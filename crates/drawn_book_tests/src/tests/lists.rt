//! What a book has, in plain lists, and what each legal call makes of them and tells. Nothing here
//! comes of the book or of the journal's judge but the types of events.

use book_steps::{Shape, Step, Told, sizes_of};
use journal_model::{Event, Sizes};
use machine_model::Memory;
use std::alloc::Global;

/// A context that was drawn.
#[derive(Clone, Copy)]
struct Drawn {
    function: u16,
    layer: Option<u16>,
    used: u32,
    /// The request that it serves.
    serves: Option<u32>,
}

/// A request that was started.
#[derive(Clone, Copy)]
struct Asked {
    function: u16,
    is_open: bool,
    is_served: bool,
}

/// Idle contexts and kept layers, the most recent first, all contexts and requests by their
/// numbers from 1 on, the free frames, and the events.
#[derive(Drop)]
pub struct Lists {
    sizes: Sizes,
    pub idle: Vec<u32>,
    pub kept: Vec<u32>,
    drawn: Vec<Drawn>,
    asked: Vec<Asked>,
    pub free: u32,
    pub events: Vec<Event>,
}

/// The place of what has this number.
fn place(number: u32) -> usize {
    (number as usize).wrapping_sub(1)
}

/// How many there are.
fn count<V>(items: &Vec<V>) -> u32 {
    u32::try_from(items.len()).unwrap_or(u32::MAX)
}

/// One more.
fn add<V: Drop>(items: &mut Vec<V>, item: V) -> Result<(), Memory> {
    if items.push(item).is_err() {
        return Err(Memory);
    }
    Ok(())
}

/// Takes the number out of the list.
fn take_out(numbers: &mut Vec<u32>, number: u32) {
    let mut found = numbers.len();
    for (at, other) in numbers.iter().enumerate() {
        if *other == number {
            found = at;
        }
    }
    if found < numbers.len() {
        numbers.remove(found);
    }
}

/// Puts the number in front.
fn put_first(numbers: &mut Vec<u32>, number: u32) -> Result<(), Memory> {
    if numbers.insert(0, number).is_err() {
        return Err(Memory);
    }
    Ok(())
}

/// The last number where there are as many as there may be; it is in the list no more.
fn pushed_out(numbers: &mut Vec<u32>, room: u32) -> Option<u32> {
    if count(numbers) < room {
        return None;
    }
    numbers.pop()
}

impl Lists {
    /// Of a book without events, where a deploy takes so many frames.
    pub fn new(alloc: Global, shape: &Shape, root: u32) -> Result<Lists, Memory> {
        Ok(Lists {
            sizes: sizes_of(alloc, shape, root)?,
            idle: Vec::new(alloc),
            kept: Vec::new(alloc),
            drawn: Vec::new(alloc),
            asked: Vec::new(alloc),
            free: shape.frames,
            events: Vec::new(alloc),
        })
    }

    /// How many functions there are.
    pub fn functions(&self) -> u32 {
        count(&self.sizes.stacks)
    }

    /// How many requests were started.
    pub fn requests(&self) -> u32 {
        count(&self.asked)
    }

    /// How many contexts were drawn.
    pub fn contexts(&self) -> u32 {
        count(&self.drawn)
    }

    fn note(&mut self, event: Event) -> Result<(), Memory> {
        add(&mut self.events, event)
    }

    fn layers_of(&self, f: u16) -> &[u16] {
        match self.sizes.stacks.get(usize::from(f)) {
            Some(stack) => stack.layers(),
            None => &[],
        }
    }

    fn image_of(&self, f: u16) -> u16 {
        match self.sizes.stacks.get(usize::from(f)) {
            Some(stack) => stack.start,
            None => 0,
        }
    }

    /// Whether the request is open.
    pub fn is_open(&self, i: u32) -> bool {
        match self.asked.get(place(i)) {
            Some(one) => one.is_open,
            None => false,
        }
    }

    /// Whether the request is open and has no context.
    pub fn waits(&self, i: u32) -> bool {
        match self.asked.get(place(i)) {
            Some(one) => one.is_open && !one.is_served,
            None => false,
        }
    }

    fn function_of(&self, i: u32) -> u16 {
        match self.asked.get(place(i)) {
            Some(one) => one.function,
            None => 0,
        }
    }

    /// The request that the context serves; none where it serves none.
    pub fn served_by(&self, c: u32) -> Option<u32> {
        self.drawn.get(place(c))?.serves
    }

    /// How often the context was used.
    pub fn used(&self, c: u32) -> u32 {
        match self.drawn.get(place(c)) {
            Some(one) => one.used,
            None => 0,
        }
    }

    /// Whether the context may be parked after its next answer.
    pub fn may_rest(&self, c: u32) -> bool {
        self.sizes.idle > 0 && self.used(c).saturating_add(1) < self.sizes.uses
    }

    /// The layer directly above the context; none where it stands on its function's own.
    pub fn next_layer(&self, c: u32) -> Option<u16> {
        let one = self.drawn.get(place(c))?;
        let mut before = None;
        for layer in self.layers_of(one.function) {
            if before == one.layer {
                return Some(*layer);
            }
            before = Some(*layer);
        }
        None
    }

    fn first_idle(&self, f: u16) -> Option<u32> {
        for c in &self.idle {
            let one = self.drawn.get(place(*c))?;
            if one.function == f {
                return Some(*c);
            }
        }
        None
    }

    fn highest(&self, f: u16) -> Option<u16> {
        let mut found = None;
        for layer in self.layers_of(f) {
            if self.kept.contains(&u32::from(*layer)) {
                found = Some(*layer);
            }
        }
        found
    }

    /// The context serves this request from now on, or none.
    fn set_serves(&mut self, c: u32, serves: Option<u32>) {
        if let Some(one) = self.drawn.get_mut(place(c)) {
            one.serves = serves;
        }
    }

    /// The context was used once more.
    fn use_once(&mut self, c: u32) {
        if let Some(one) = self.drawn.get_mut(place(c)) {
            one.used = one.used.saturating_add(1);
        }
    }

    /// The request is open no more.
    fn shut(&mut self, i: u32) {
        if let Some(one) = self.asked.get_mut(place(i)) {
            one.is_open = false;
        }
    }

    /// The request has a context.
    fn serve_request(&mut self, i: u32) {
        if let Some(one) = self.asked.get_mut(place(i)) {
            one.is_served = true;
        }
    }

    /// The frame of a context that is released comes back.
    fn give_back(&mut self) -> Result<(), Memory> {
        if self.sizes.root == 0 {
            return Ok(());
        }
        self.free = self.free.saturating_add(1);
        self.note(Event::Back { n: 1 })
    }

    fn start(&mut self, f: u16, t: u64) -> Result<Told, Memory> {
        let one = Asked {
            function: f,
            is_open: true,
            is_served: false,
        };
        add(&mut self.asked, one)?;
        let i = count(&self.asked);
        self.note(Event::Start { i, f, t })?;
        Ok(Told::Started(i))
    }

    fn deploy(&mut self, i: u32, f: u16) -> Result<Told, Memory> {
        let layer = self.highest(f);
        let one = Drawn {
            function: f,
            layer,
            used: 0,
            serves: Some(i),
        };
        add(&mut self.drawn, one)?;
        self.serve_request(i);
        let c = count(&self.drawn);
        let n = self.sizes.root;
        self.free = self.free.saturating_sub(n);
        self.note(Event::Deploy { c, k: layer, i, n })?;
        let Some(k) = layer else {
            let mark = u64::from(self.image_of(f));
            return Ok(Told::FromImage { c, mark });
        };
        take_out(&mut self.kept, u32::from(k));
        put_first(&mut self.kept, u32::from(k))?;
        let mark = u64::from(k).saturating_add(100);
        Ok(Told::FromLayer { c, k, mark })
    }

    fn serve(&mut self, i: u32) -> Result<Told, Memory> {
        let f = self.function_of(i);
        if let Some(c) = self.first_idle(f) {
            take_out(&mut self.idle, c);
            self.serve_request(i);
            self.set_serves(c, Some(i));
            self.note(Event::Take { c, i })?;
            return Ok(Told::Hot(c));
        }
        if self.free < self.sizes.root {
            return Ok(Told::Frames);
        }
        self.deploy(i, f)
    }

    fn keep(&mut self, c: u32, k: u16, d: u32) -> Result<Told, Memory> {
        if self.sizes.root > 0 {
            return Ok(Told::NeedFrames);
        }
        if let Some(one) = self.drawn.get_mut(place(c)) {
            one.layer = Some(k);
        }
        self.note(Event::Built { c, k, d })?;
        if self.kept.contains(&u32::from(k)) {
            self.note(Event::Dup { k })?;
            return Ok(Told::Twice);
        }
        let last = pushed_out(&mut self.kept, self.sizes.layers);
        put_first(&mut self.kept, u32::from(k))?;
        let Some(last) = last else {
            self.note(Event::Keep { k })?;
            return Ok(Told::Kept);
        };
        let j = u16::try_from(last).unwrap_or(u16::MAX);
        self.note(Event::Drop { k: j })?;
        self.note(Event::Keep { k })?;
        Ok(Told::Dropped(j))
    }

    fn answer(&mut self, i: u32, c: u32, u: u32) -> Result<(), Memory> {
        self.shut(i);
        self.use_once(c);
        self.note(Event::Answer { i, c, u })
    }

    fn park(&mut self, i: u32, c: u32) -> Result<Told, Memory> {
        let u = self.used(c);
        self.answer(i, c, u)?;
        self.set_serves(c, None);
        let last = pushed_out(&mut self.idle, self.sizes.idle);
        put_first(&mut self.idle, c)?;
        let Some(e) = last else {
            self.note(Event::Park { c })?;
            return Ok(Told::Parked);
        };
        self.note(Event::Evict { c: e })?;
        self.note(Event::Park { c })?;
        self.give_back()?;
        Ok(Told::Evicted(e))
    }

    fn end(&mut self, i: u32, c: u32, answered: Option<u32>) -> Result<Told, Memory> {
        if let Some(u) = answered {
            self.answer(i, c, u)?;
        }
        self.set_serves(c, None);
        self.note(Event::End { c })?;
        self.give_back()?;
        Ok(Told::Ended(self.sizes.root))
    }

    fn want(&mut self, i: u32) -> Result<Told, Memory> {
        self.shut(i);
        self.note(Event::Want { i })?;
        Ok(Told::Wanted)
    }

    /// What a legal call tells, and makes of the lists.
    pub fn told(&mut self, step: Step) -> Result<Told, Memory> {
        match step {
            Step::Start { f, t } => self.start(f, t),
            Step::Serve { i } => self.serve(i),
            Step::Keep { c, k, d } => self.keep(c, k, d),
            Step::Park { i, c } => self.park(i, c),
            Step::End { i, c, answered } => self.end(i, c, answered),
            Step::Want { i } => self.want(i),
            Step::Abandon => Ok(Told::Stopped),
        }
    }
}
