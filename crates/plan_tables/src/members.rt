//! What stands at the keys of a table.

ghost use Rattle.std.specs.Prelude.{◌≡◌, ◌<◌, [], length, option_map, Some, IfOk, IfSome};
ghost use Rattle.std.specs.Prelude.{unwrap_or};
ghost use Rattle.std.specs.Result.{result_err};
ghost use Rattle.toml.specs.Data.{as_str, as_array};
ghost use Rattle.toml.specs.View.{view, table_view, array_view, items_view};
ghost use Rattle.plan_model.specs.Outline.{IsFrom};
ghost use Rattle.plan_tables.specs.Faults.{Tells, unknown_fault};
ghost use Rattle.plan_tables.specs.Keys.{value_at, is_one_of, first_other};
ghost use Rattle.plan_tables.specs.Values as spec;
ghost use Rattle.plan_tables.specs.Values.{IsInRule, number_fault, number_at, text_fault, text_at};
ghost use Rattle.plan_tables.specs.Values.{tables_fault, tables_at, tables_among, items_fault};
ghost use Rattle.plan_tables.specs.Values.{are_tables, items_or_none};

use crate::fault::PlanFault;
use crate::key::Key;
use crate::rule::NumberRule;
use plan_model::Text;
use std::alloc::Global;
use toml::{Table, Value};

/// What stands at the key.
pub fn value(table: &Table, key: Key) -> Option<&Value>
    ensures { option_map (λ v. view v.now) result ≡ value_at key (table_view table.now) }
{
    table.get(key.text())
}

/// Whether the text is one of the keys.
fn is_one_of(keys: &[Key], text: &str) -> bool
    ensures { result ≡ is_one_of keys.now text.now }
{
    match keys {
        [] => false,
        [first, rest @ ..] => first.text() == text || is_one_of(rest, text),
    }
}

/// Refuses a table for its first key, in byte order, that is none of these.
#[tactic(auto, unfolding(crate::specs::Faults::unknown_fault))]
pub fn check_keys(alloc: Global, table: &Table, keys: &[Key]) -> Result<(), PlanFault>
    ensures { Tells (unknown_fault keys.now (table_view table.now)) result }
{
    'members: for (text, _value) in table.iter() {
        if !is_one_of(keys, text.as_str()) {
            return Err(PlanFault::Unknown(Text::copy_of(alloc, text.as_str())?));
        }
    }
    Ok(())
}

/// The number at the rule's key, or the one that it has otherwise; `Missing`, `Shape`, `Range`.
pub fn number(table: &Table, rule: &NumberRule) -> Result<u64, PlanFault>
    requires step { 0 < rule.now.step }
    requires otherwise { IfSome rule.now.otherwise (λ n. IsInRule rule.now n) }
    ensures fault { result_err result ≡ number_fault rule.now (table_view table.now) }
    ensures value { IfOk result (λ n. n ≡ number_at rule.now (table_view table.now)) }
    ensures range { IfOk result (λ n. IsInRule rule.now n) }
{
    match value(table, rule.key) {
        None => rule.missing(),
        Some(value) => rule.number(value),
    }
}

/// A copy of the text at the key; `Missing`, `Shape`.
pub fn text(alloc: Global, table: &Table, key: Key) -> Result<Text, PlanFault>
    ensures fault { Tells (text_fault key (table_view table.now)) result }
    ensures value { IfOk result (λ text. text ≡ text_at key (table_view table.now)) }
{
    match value(table, key) {
        None => Err(PlanFault::Missing(key)),
        Some(value) => text_of(alloc, value, key),
    }
}

/// A copy of the text that the value at the key is; `Shape`.
pub fn text_of(alloc: Global, value: &Value, key: Key) -> Result<Text, PlanFault>
    ensures fault { Tells (spec.data_text_fault key (Some (view value.now))) result }
    ensures value { IfOk result (λ text. text ≡ unwrap_or (as_str (view value.now)) []) }
{
    match value.as_str() {
        None => Err(PlanFault::Shape(key)),
        Some(text) => Ok(Text::copy_of(alloc, text)?),
    }
}

/// The 1 to 64 tables that stand at the key; `Missing`, `Shape`, `Range`.
pub fn tables(table: &Table, key: Key) -> Result<&[Value], PlanFault>
    ensures fault { result_err result ≡ tables_fault key (table_view table.now) }
    ensures value { IfOk result (λ values.
        tables_among (items_view values.now) ≡ tables_at key (table_view table.now)) }
    ensures count { IfOk result (λ values.
        IsFrom 1 64 (length (tables_among (items_view values.now)))) }
{
    match value(table, key) {
        None => Err(PlanFault::Missing(key)),
        Some(value) => tables_of(value, key),
    }
}

/// The 1 to 64 tables that the value at the key holds; `Shape`, `Range`.
fn tables_of(value: &Value, key: Key) -> Result<&[Value], PlanFault>
    ensures fault { result_err result ≡ spec.data_tables_fault key (Some (view value.now)) }
    ensures value { IfOk result (λ values. tables_among (items_view values.now)
        ≡ tables_among (items_or_none (as_array (view value.now)))) }
    ensures count { IfOk result (λ values.
        IsFrom 1 64 (length (tables_among (items_view values.now)))) }
{
    match value.as_array() {
        None => Err(PlanFault::Shape(key)),
        Some(array) => tables_in(array.as_slice(), key),
    }
}

/// The most layers, and the most functions.
const MOST_TABLES: usize = 64;

/// These values, where they are 1 to 64 tables; `Shape`, `Range`.
#[tactic(auto, using(crate::proofs::Items::count_view, crate::proofs::Items::tables_count))]
fn tables_in(values: &[Value], key: Key) -> Result<&[Value], PlanFault>
    ensures fault { result_err result ≡ items_fault key (Some (items_view values.now)) }
    ensures value { IfOk result (λ tables. tables.now ≡ values.now) }
    ensures count { IfOk result (λ values.
        IsFrom 1 64 (length (tables_among (items_view values.now)))) }
{
    if !are_tables(values) {
        return Err(PlanFault::Shape(key));
    }
    if values.is_empty() || values.len() > MOST_TABLES {
        return Err(PlanFault::Range(key));
    }
    Ok(values)
}

/// Whether all of the values are tables.
fn are_tables(values: &[Value]) -> bool
    ensures { result ≡ are_tables (items_view values.now) }
{
    'values: for value in values {
        if value.as_table().is_none() {
            return false;
        }
    }
    true
}
