//! The top table.

ghost use Rattle.std.specs.Prelude.{◌≡◌, ◌≤◌, ◌<◌, ◌-◌, ◌%◌, ◌^◌, length, IfOk};
ghost use Rattle.std.specs.Result.{result_err};
ghost use Rattle.toml.specs.View.{table_view, items_view};
ghost use Rattle.plan_model.specs.Outline.{AreNumbers, IsFrom};
ghost use Rattle.plan_tables.specs.Faults.{Tells};
ghost use Rattle.plan_tables.specs.Top as spec;
ghost use Rattle.plan_tables.specs.Values.{tables_among, tables_at};
ghost use Rattle.plan_tables.specs.declared.key.Key.TheVariants as keys;

use crate::fault::PlanFault;
use crate::key::Key;
use crate::members::{check_keys, number, tables};
use crate::rule::NumberRule;
use plan_model::Numbers;
use std::alloc::Global;
use toml::{Table, Value};

/// The keys of the top table.
const TOP_KEYS: [Key; 12] = [
    Key::Frames,
    Key::Workers,
    Key::Idle,
    Key::Layers,
    Key::Uses,
    Key::Budget,
    Key::Prepare,
    Key::Stack,
    Key::Clock,
    Key::Serve,
    Key::Layer,
    Key::Function,
];

/// How many frames there are beside those of the images.
const FRAMES: NumberRule = NumberRule {
    key: Key::Frames,
    lowest: 1,
    highest: 65_536,
    step: 1,
    otherwise: None,
};

const WORKERS: NumberRule = NumberRule {
    key: Key::Workers,
    lowest: 1,
    highest: 16,
    step: 1,
    otherwise: None,
};

/// How many idle contexts are kept.
const IDLE: NumberRule = NumberRule {
    key: Key::Idle,
    lowest: 0,
    highest: 256,
    step: 1,
    otherwise: None,
};

/// The room of the layer cache, in layers.
const ROOM: NumberRule = NumberRule {
    key: Key::Layers,
    lowest: 1,
    highest: 256,
    step: 1,
    otherwise: None,
};

/// How many requests a context serves.
const USES: NumberRule = NumberRule {
    key: Key::Uses,
    lowest: 1,
    highest: 64,
    step: 1,
    otherwise: Some(64),
};

/// The instructions of a request.
const BUDGET: NumberRule = NumberRule {
    key: Key::Budget,
    lowest: 1,
    highest: 1_000_000_000,
    step: 1,
    otherwise: Some(1_000_000),
};

/// The instructions of a layer.
const PREPARE: NumberRule = NumberRule {
    key: Key::Prepare,
    lowest: 1,
    highest: 1_000_000_000,
    step: 1,
    otherwise: Some(10_000_000),
};

/// The bytes of a stack.
const STACK: NumberRule = NumberRule {
    key: Key::Stack,
    lowest: 4_096,
    highest: 16_777_216,
    step: 4_096,
    otherwise: Some(65_536),
};

/// What the clock shows, in nanoseconds.
const CLOCK: NumberRule = NumberRule {
    key: Key::Clock,
    lowest: 0,
    highest: (1 << 63) - 1,
    step: 1,
    otherwise: Some(0),
};

/// How many requests are served.
const SERVE: NumberRule = NumberRule {
    key: Key::Serve,
    lowest: 1,
    highest: 4_096,
    step: 1,
    otherwise: Some(4_096),
};

/// What the top table says.
#[derive(Drop)]
pub struct Top<'a> {
    pub numbers: Numbers,
    /// The tables of the layers and of the functions, 1 to 64 each.
    pub layers: &'a [Value],
    pub functions: &'a [Value],
}

/// The frames, workers and what is kept.
#[derive(Drop)]
pub struct Capacity {
    frames: u32,
    workers: u8,
    idle: u16,
    room: u16,
    uses: u32,
}

/// What a request may take, and how many are served.
#[derive(Drop)]
pub struct Limits {
    budget: u64,
    prepare: u64,
    stack_bytes: u64,
    clock: u64,
    serve: u32,
}

/// The numbers of the caches and workers; the first fault of their keys.
#[tactic(auto, unfolding(crate::specs::Top::capacity_fault))]
fn read_capacity(table: &Table) -> Result<Capacity, PlanFault>
    ensures fault { result_err result ≡ spec.capacity_fault (table_view table.now) }
    ensures value { IfOk result (λ c. c ≡ spec.capacity_at (table_view table.now)) }
    ensures frames { IfOk result (λ c. IsFrom 1 65536 c.frames) }
    ensures workers { IfOk result (λ c. IsFrom 1 16 c.workers) }
    ensures idle { IfOk result (λ c. IsFrom 0 256 c.idle) }
    ensures room { IfOk result (λ c. IsFrom 1 256 c.room) }
    ensures uses { IfOk result (λ c. IsFrom 1 64 c.uses) }
{
    Ok(Capacity {
        frames: number(table, &FRAMES)? as u32,
        workers: number(table, &WORKERS)? as u8,
        idle: number(table, &IDLE)? as u16,
        room: number(table, &ROOM)? as u16,
        uses: number(table, &USES)? as u32,
    })
}

/// The numbers of requests; the first fault of their keys.
#[tactic(auto, unfolding(crate::specs::Top::limits_fault))]
fn read_limits(table: &Table) -> Result<Limits, PlanFault>
    ensures fault { result_err result ≡ spec.limits_fault (table_view table.now) }
    ensures value { IfOk result (λ l. l ≡ spec.limits_at (table_view table.now)) }
    ensures budget { IfOk result (λ l. IsFrom 1 1000000000 l.budget) }
    ensures prepare { IfOk result (λ l. IsFrom 1 1000000000 l.prepare) }
    ensures stack_bytes { IfOk result (λ l. IsFrom 4096 16777216 l.stack_bytes) }
    ensures stack_pages { IfOk result (λ l. l.stack_bytes % 4096 ≡ 0) }
    ensures clock { IfOk result (λ l. IsFrom 0 (2 ^ 63 - 1) l.clock) }
    ensures serve { IfOk result (λ l. IsFrom 1 4096 l.serve) }
{
    Ok(Limits {
        budget: number(table, &BUDGET)?,
        prepare: number(table, &PREPARE)?,
        stack_bytes: number(table, &STACK)?,
        clock: number(table, &CLOCK)?,
        serve: number(table, &SERVE)? as u32,
    })
}

/// What the top table says; the first fault of its keys.
#[tactic(auto, unfolding(crate::specs::Top::top_fault))]
pub fn read_top(alloc: Global, table: &Table) -> Result<Top<'_>, PlanFault>
    ensures fault { Tells (spec.top_fault (table_view table.now)) result }
    ensures numbers { IfOk result (λ top. top.numbers ≡ spec.numbers_at (table_view table.now)) }
    ensures in_range { IfOk result (λ top. AreNumbers top.numbers) }
    ensures layers { IfOk result (λ top. tables_among (items_view top.layers.now)
        ≡ tables_at keys.Layer (table_view table.now)) }
    ensures layer_count { IfOk result (λ top.
        IsFrom 1 64 (length (tables_among (items_view top.layers.now)))) }
    ensures function_count { IfOk result (λ top.
        IsFrom 1 64 (length (tables_among (items_view top.functions.now)))) }
    ensures functions { IfOk result (λ top. tables_among (items_view top.functions.now)
        ≡ tables_at keys.Function (table_view table.now)) }
{
    check_keys(alloc, table, &TOP_KEYS)?;
    let capacity = read_capacity(table)?;
    let limits = read_limits(table)?;
    let layers = tables(table, Key::Layer)?;
    let functions = tables(table, Key::Function)?;
    Ok(Top {
        numbers: numbers(capacity, limits),
        layers,
        functions,
    })
}

/// All of the numbers.
fn numbers(capacity: Capacity, limits: Limits) -> Numbers
    ensures { result ≡ record {
      frames = capacity.frames;
      workers = capacity.workers;
      idle = capacity.idle;
      room = capacity.room;
      uses = capacity.uses;
      budget = limits.budget;
      prepare = limits.prepare;
      stack_bytes = limits.stack_bytes;
      clock = limits.clock;
      serve = limits.serve;
    } }
{
    Numbers {
        frames: capacity.frames,
        workers: capacity.workers,
        idle: capacity.idle,
        room: capacity.room,
        uses: capacity.uses,
        budget: limits.budget,
        prepare: limits.prepare,
        stack_bytes: limits.stack_bytes,
        clock: limits.clock,
        serve: limits.serve,
    }
}
