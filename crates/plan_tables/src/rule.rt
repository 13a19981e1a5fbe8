//! The range of a number.

ghost use Rattle.std.specs.Prelude.{◌≡◌, ◌≤◌, ◌<◌, ◌%◌, Some, None, IfOk, IfSome, unwrap_or};
ghost use Rattle.std.specs.Result.{result_err};
ghost use Rattle.toml.specs.View.{view};
ghost use Rattle.plan_tables.specs.Values.{natural_in, rule_fault, rule_number, IsInRule};

use crate::fault::PlanFault;
use crate::key::Key;
use toml::Value;

/// The key of a number, its range, and the number where the key is missing.
#[derive(Clone, Copy)]
pub struct NumberRule {
    pub key: Key,
    /// The least and the greatest of its numbers.
    pub lowest: u64,
    pub highest: u64,
    /// Its numbers are the multiples of this number, which isn't 0.
    pub step: u64,
    /// The number where the key is missing, or none where it may not be.
    pub otherwise: Option<u64>,
}

impl NumberRule {
    /// The number where the key is missing; `Missing`.
    pub fn missing(&self) -> Result<u64, PlanFault>
        requires { IfSome self.now.otherwise (λ n. IsInRule self.now n) }
        ensures fault { result_err result ≡ rule_fault self.now None }
        ensures value { IfOk result (λ n. n ≡ unwrap_or (rule_number self.now None) 0) }
        ensures range { IfOk result (λ n. IsInRule self.now n) }
    {
        match self.otherwise {
            Some(number) => Ok(number),
            None => Err(PlanFault::Missing(self.key)),
        }
    }

    /// The number that the value at the key is; `Shape`, `Range`.
    pub fn number(&self, value: &Value) -> Result<u64, PlanFault>
        requires { 0 < self.now.step }
        ensures fault { result_err result ≡ rule_fault self.now (Some (view value.now)) }
        ensures value { IfOk result (λ n.
            n ≡ unwrap_or (rule_number self.now (Some (view value.now))) 0) }
        ensures range { IfOk result (λ n. IsInRule self.now n) }
    {
        match value.as_integer() {
            None => Err(PlanFault::Shape(self.key)),
            Some(integer) => match self.natural(integer) {
                None => Err(PlanFault::Range(self.key)),
                Some(number) => Ok(number),
            },
        }
    }

    /// The number that an integer is, or none where it is out of the range.
    fn natural(&self, integer: i64) -> Option<u64>
        requires { 0 < self.now.step }
        ensures value { result ≡ natural_in self.now integer }
        ensures range { IfSome result (λ n. IsInRule self.now n) }
    {
        if integer < 0 {
            return None;
        }
        let number = integer as u64;
        if self.lowest <= number && (number <= self.highest && number % self.step == 0) {
            Some(number)
        } else {
            None
        }
    }
}
