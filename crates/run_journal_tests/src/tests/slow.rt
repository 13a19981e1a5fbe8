//! A slow judge of its own: plain lists, and what must stand next written out as events.

use run_journal::{Event, How, Judged, Sizes, Standing, Totals};
use std::alloc::Global;
use std::test::Fail;

/// A started request.
#[derive(Clone, Copy)]
struct Asked {
    i: u32,
    f: u16,
    how: How,
    context: Option<u32>,
    standing: Standing,
}

/// A context that was drawn, with the request that it serves.
#[derive(Clone, Copy)]
struct Drawn {
    c: u32,
    f: u16,
    layer: Option<u16>,
    used: u64,
    serves: Option<u32>,
}

/// Where the slow judge is.
#[derive(Drop)]
struct Slow {
    alloc: Global,
    idle: Vec<u32>,
    kept: Vec<u16>,
    asked: Vec<Asked>,
    drawn: Vec<Drawn>,
    free: u64,
    /// One of these rows of events must stand next, where there are any.
    must: Vec<Vec<Event>>,
}

fn numbers_without(alloc: Global, list: &[u32], c: u32) -> Result<Vec<u32>, Fail> {
    let mut rest = Vec::new(alloc);
    for other in list {
        if *other != c {
            rest.push(*other)?;
        }
    }
    Ok(rest)
}

fn layers_without(alloc: Global, list: &[u16], k: u16) -> Result<Vec<u16>, Fail> {
    let mut rest = Vec::new(alloc);
    for other in list {
        if *other != k {
            rest.push(*other)?;
        }
    }
    Ok(rest)
}

/// The layers of a function.
fn stack(sizes: &Sizes, f: u16) -> &[u16] {
    match sizes.stacks.get(f as usize) {
        Some(stack) => stack.layers(),
        None => &[],
    }
}

/// Whether `k` stands in the stack directly above `place`.
fn is_above(stack: &[u16], place: Option<u16>, k: u16) -> bool {
    let mut before = None;
    for layer in stack {
        if before == place && *layer == k {
            return true;
        }
        before = Some(*layer);
    }
    false
}

fn is_row_of(row: &[Event], event: Event) -> bool {
    match row.first() {
        Some(first) => *first == event,
        None => false,
    }
}

fn tail(alloc: Global, row: &[Event]) -> Result<Vec<Event>, Fail> {
    let mut rest = Vec::new(alloc);
    for (at, event) in row.iter().enumerate() {
        if at > 0 {
            rest.push(*event)?;
        }
    }
    Ok(rest)
}

impl Slow {
    fn new(alloc: Global, sizes: &Sizes) -> Slow {
        Slow {
            alloc,
            idle: Vec::new(alloc),
            kept: Vec::new(alloc),
            asked: Vec::new(alloc),
            drawn: Vec::new(alloc),
            free: u64::from(sizes.frames),
            must: Vec::new(alloc),
        }
    }

    fn asked(&self, i: u32) -> Option<Asked> {
        for one in &self.asked {
            if one.i == i {
                return Some(*one);
            }
        }
        None
    }

    fn drawn(&self, c: u32) -> Option<Drawn> {
        for one in &self.drawn {
            if one.c == c {
                return Some(*one);
            }
        }
        None
    }

    fn is_open(&self, i: u32) -> bool {
        match self.asked(i) {
            Some(one) => one.standing == Standing::Open,
            None => false,
        }
    }

    /// The function of a request that is open and has no context.
    fn waits_for(&self, i: u32) -> Option<u16> {
        match self.asked(i) {
            Some(one) if one.standing == Standing::Open && one.context.is_none() => Some(one.f),
            Some(_) | None => None,
        }
    }

    fn serves_open(&self, c: u32) -> Option<Drawn> {
        let one = self.drawn(c)?;
        let i = one.serves?;
        if self.is_open(i) { Some(one) } else { None }
    }

    fn first_idle(&self, f: u16) -> Option<u32> {
        for c in &self.idle {
            match self.drawn(*c) {
                Some(one) if one.f == f => return Some(*c),
                Some(_) | None => {}
            }
        }
        None
    }

    fn highest(&self, sizes: &Sizes, f: u16) -> Option<u16> {
        let mut found = None;
        for layer in stack(sizes, f) {
            if self.kept.contains(layer) {
                found = Some(*layer);
            }
        }
        found
    }

    /// Request `i` has this context and stands so.
    fn mark(&mut self, i: u32, how: How, context: Option<u32>, standing: Standing) {
        for one in self.asked.iter_mut() {
            if one.i == i {
                one.how = how;
                one.context = context;
                one.standing = standing;
            }
        }
    }

    fn close(&mut self, i: u32, standing: Standing) {
        if let Some(one) = self.asked(i) {
            self.mark(i, one.how, one.context, standing);
        }
    }

    fn turn(&mut self, c: u32, layer: Option<u16>, used: u64, serves: Option<u32>) {
        for one in self.drawn.iter_mut() {
            if one.c == c {
                one.layer = layer;
                one.used = used;
                one.serves = serves;
            }
        }
    }

    /// Context `c` serves this request from now on, or nobody.
    fn serve(&mut self, c: u32, serves: Option<u32>) {
        if let Some(one) = self.drawn(c) {
            self.turn(c, one.layer, one.used, serves);
        }
    }

    fn to_front(&mut self, k: u16) -> Result<(), Fail> {
        let rest = layers_without(self.alloc, &self.kept, k)?;
        let mut kept = Vec::new(self.alloc);
        kept.push(k)?;
        for other in &rest {
            kept.push(*other)?;
        }
        self.kept = kept;
        Ok(())
    }

    fn park(&mut self, c: u32) -> Result<(), Fail> {
        let mut idle = Vec::new(self.alloc);
        idle.push(c)?;
        for other in &self.idle {
            idle.push(*other)?;
        }
        self.idle = idle;
        self.serve(c, None);
        Ok(())
    }

    fn may_start(&self, sizes: &Sizes, i: u32, f: u16, t: u64) -> bool {
        let clock = match sizes.clock {
            Some(clock) => clock == t,
            None => true,
        };
        let next = self.asked.len() < i as usize && i as usize - 1 == self.asked.len();
        next && i <= sizes.requests && (f as usize) < sizes.stacks.len() && clock
    }

    fn start(&mut self, sizes: &Sizes, i: u32, f: u16, t: u64) -> Result<bool, Fail> {
        if !self.may_start(sizes, i, f, t) {
            return Ok(false);
        }
        let (how, context, standing) = (How::None, None, Standing::Open);
        self.asked.push(Asked {
            i,
            f,
            how,
            context,
            standing,
        })?;
        Ok(true)
    }

    fn take(&mut self, c: u32, i: u32) -> Result<bool, Fail> {
        let Some(f) = self.waits_for(i) else {
            return Ok(false);
        };
        if self.first_idle(f) != Some(c) {
            return Ok(false);
        }
        self.idle = numbers_without(self.alloc, &self.idle, c)?;
        self.mark(i, How::Hot, Some(c), Standing::Open);
        self.serve(c, Some(i));
        Ok(true)
    }

    fn may_deploy(&self, sizes: &Sizes, f: u16, c: u32, k: Option<u16>, n: u32) -> bool {
        let next = self.drawn.len() < c as usize && c as usize - 1 == self.drawn.len();
        let place = self.highest(sizes, f) == k;
        self.first_idle(f).is_none()
            && next
            && place
            && n == sizes.root
            && u64::from(n) <= self.free
    }

    fn deploy(
        &mut self,
        sizes: &Sizes,
        c: u32,
        k: Option<u16>,
        i: u32,
        n: u32,
    ) -> Result<bool, Fail> {
        let Some(f) = self.waits_for(i) else {
            return Ok(false);
        };
        if !self.may_deploy(sizes, f, c, k, n) {
            return Ok(false);
        }
        let top = stack(sizes, f).last().copied();
        let warm = k.is_some() && top == k;
        self.mark(
            i,
            if warm { How::Warm } else { How::Cold },
            Some(c),
            Standing::Open,
        );
        self.draw(c, f, k, i)?;
        self.free = self.free.saturating_sub(u64::from(n));
        Ok(true)
    }

    fn draw(&mut self, c: u32, f: u16, layer: Option<u16>, i: u32) -> Result<(), Fail> {
        if let Some(k) = layer {
            self.to_front(k)?;
        }
        let (used, serves) = (0, Some(i));
        self.drawn.push(Drawn {
            c,
            f,
            layer,
            used,
            serves,
        })?;
        Ok(())
    }

    fn refill(&mut self, sizes: &Sizes, c: u32, h: u32, n: u32) -> bool {
        if sizes.root != 1 || h > 15 || n == 0 || self.serves_open(c).is_none() {
            return false;
        }
        let most = 16 - u64::from(h);
        if u64::from(n) != most.min(self.free) {
            return false;
        }
        self.free = self.free.saturating_sub(u64::from(n));
        true
    }

    fn built(&mut self, sizes: &Sizes, c: u32, k: u16) -> Result<bool, Fail> {
        let Some(one) = self.serves_open(c) else {
            return Ok(false);
        };
        if !is_above(stack(sizes, one.f), one.layer, k) {
            return Ok(false);
        }
        self.turn(c, Some(k), one.used, one.serves);
        let row = self.after_built(sizes, k)?;
        self.must.push(row)?;
        Ok(true)
    }

    /// What stands directly after a layer was built.
    fn after_built(&self, sizes: &Sizes, k: u16) -> Result<Vec<Event>, Fail> {
        let mut row = Vec::new(self.alloc);
        if self.kept.contains(&k) {
            row.push(Event::Dup { k })?;
            return Ok(row);
        }
        if self.kept.len() >= sizes.layers as usize {
            if let Some(last) = self.kept.last() {
                row.push(Event::Drop { k: *last })?;
            }
        }
        row.push(Event::Keep { k })?;
        Ok(row)
    }

    fn answer(&mut self, sizes: &Sizes, i: u32, c: u32, u: u32) -> Result<bool, Fail> {
        let Some(one) = self.serves_open(c) else {
            return Ok(false);
        };
        if one.serves != Some(i) || one.used != u64::from(u) {
            return Ok(false);
        }
        let used = one.used.saturating_add(1);
        self.close(i, Standing::Answered);
        self.turn(c, one.layer, used, one.serves);
        let mut end = Vec::new(self.alloc);
        end.push(Event::End { c })?;
        self.must.push(end)?;
        if sizes.idle >= 1 && used < u64::from(sizes.uses) {
            let row = self.before_park(sizes, c)?;
            self.must.push(row)?;
        }
        Ok(true)
    }

    /// What stands directly after an answer whose context becomes idle.
    fn before_park(&self, sizes: &Sizes, c: u32) -> Result<Vec<Event>, Fail> {
        let mut row = Vec::new(self.alloc);
        if self.idle.len() >= sizes.idle as usize {
            if let Some(last) = self.idle.last() {
                row.push(Event::Evict { c: *last })?;
            }
        }
        row.push(Event::Park { c })?;
        Ok(row)
    }

    fn end(&mut self, c: u32) -> bool {
        let Some(one) = self.drawn(c) else {
            return false;
        };
        let Some(i) = one.serves else {
            return false;
        };
        let Some(request) = self.asked(i) else {
            return false;
        };
        let failed = request.standing == Standing::Refused || request.standing == Standing::Wanted;
        if failed {
            self.serve(c, None);
        }
        failed
    }

    fn back(&mut self, sizes: &Sizes, n: u32) -> bool {
        let free = self.free.saturating_add(u64::from(n));
        if sizes.root != 1 || n == 0 || free > 131_072 {
            return false;
        }
        self.free = free;
        true
    }

    fn refuse(&mut self, i: u32) -> bool {
        let may = self.is_open(i) && self.free == 0 && self.idle.is_empty() && self.kept.is_empty();
        if may {
            self.close(i, Standing::Refused);
        }
        may
    }

    fn want(&mut self, i: u32) -> bool {
        let may = self.is_open(i);
        if may {
            self.close(i, Standing::Wanted);
        }
        may
    }

    /// An event that nothing asked for.
    fn freely(&mut self, sizes: &Sizes, event: Event) -> Result<bool, Fail> {
        let short = sizes.root == 1 && self.free == 0;
        match event {
            Event::Start { i, f, t } => self.start(sizes, i, f, t),
            Event::Take { c, i } => self.take(c, i),
            Event::Deploy { c, k, i, n } => self.deploy(sizes, c, k, i, n),
            Event::Refill { c, h, n } => Ok(self.refill(sizes, c, h, n)),
            Event::Built { c, k, d: _ } => self.built(sizes, c, k),
            Event::Answer { i, c, u } => self.answer(sizes, i, c, u),
            Event::End { c } => Ok(self.end(c)),
            Event::Back { n } => Ok(self.back(sizes, n)),
            Event::Refuse { i } => Ok(self.refuse(i)),
            Event::Want { i } => Ok(self.want(i)),
            Event::Keep { .. } | Event::Dup { .. } | Event::Park { .. } => Ok(false),
            Event::Drop { k } => {
                let may = short && self.idle.is_empty() && self.kept.last() == Some(&k);
                self.go(event, may)
            }
            Event::Evict { c } => {
                let may = short && self.idle.last() == Some(&c);
                self.go(event, may)
            }
        }
    }

    /// What an event does that was asked for, or may stand.
    fn go(&mut self, event: Event, may: bool) -> Result<bool, Fail> {
        if !may {
            return Ok(false);
        }
        match event {
            Event::Keep { k } => self.to_front(k)?,
            Event::Drop { k } => self.kept = layers_without(self.alloc, &self.kept, k)?,
            Event::Park { c } => self.park(c)?,
            Event::End { c } => self.serve(c, None),
            Event::Evict { c } => self.idle = numbers_without(self.alloc, &self.idle, c)?,
            Event::Dup { .. } | Event::Start { .. } | Event::Take { .. } => {}
            Event::Deploy { .. } | Event::Refill { .. } | Event::Built { .. } => {}
            Event::Back { .. } | Event::Refuse { .. } | Event::Want { .. } => {}
            Event::Answer { .. } => {}
        }
        Ok(true)
    }

    /// The rows that go on after the event; none where it begins no row.
    fn rows_after(&self, event: Event) -> Result<Vec<Vec<Event>>, Fail> {
        let mut rows = Vec::new(self.alloc);
        for row in &self.must {
            if is_row_of(row, event) {
                rows.push(tail(self.alloc, row)?)?;
            }
        }
        Ok(rows)
    }

    fn step(&mut self, sizes: &Sizes, event: Event) -> Result<bool, Fail> {
        if self.must.is_empty() {
            return self.freely(sizes, event);
        }
        let rows = self.rows_after(event)?;
        if rows.is_empty() {
            return Ok(false);
        }
        let done = rows.iter().any(|row| row.is_empty());
        self.must = if done { Vec::new(self.alloc) } else { rows };
        self.go(event, true)
    }

    fn count(&self, how: How) -> u32 {
        let mut count: u32 = 0;
        for one in &self.asked {
            if one.how == how {
                count = count.saturating_add(1);
            }
        }
        count
    }

    fn totals(&self) -> Totals {
        Totals {
            requests: self.asked.len().min(9_999) as u32,
            cold: self.count(How::Cold),
            warm: self.count(How::Warm),
            hot: self.count(How::Hot),
            none: self.count(How::None),
            free: self.free.min(131_072) as u32,
        }
    }
}

/// The verdict of the slow judge.
pub fn slowly_judged(alloc: Global, sizes: &Sizes, events: &[Event]) -> Result<Judged, Fail> {
    let mut slow = Slow::new(alloc, sizes);
    for (at, event) in events.iter().enumerate() {
        if !slow.step(sizes, *event)? {
            return Ok(Judged::Broken { at });
        }
    }
    if slow.must.is_empty() {
        Ok(Judged::Legal(slow.totals()))
    } else {
        Ok(Judged::Broken { at: events.len() })
    }
}
