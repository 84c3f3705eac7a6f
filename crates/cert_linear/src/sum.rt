//! A sum of rows.

ghost use Rattle.std.specs.Prelude.{◌≡◌, ◌≤◌, ◌<◌, ◌+◌, ◌+ℤ◌, ◌*ℤ◌, ℕ, ◌&&◌, not, ◌==◌, if◌then◌else◌, pos};
ghost use Rattle.std.specs.Prelude.{negsuc, nat_abs, int_le, length, true, OnOk, IfSome, All, Contains};
ghost use Rattle.std.specs.List.{list_all};
ghost use Rattle.pres_ast.specs.PredicateValue.{is_multiple};
ghost use Rattle.cert_base.specs.declared.fact.Row.{Row};
ghost use Rattle.cert_base.specs.ClosingTests.{times, no_row, each_coefficient, is_zero_row};
ghost use Rattle.cert_linear.specs.Conditions.{AreAscending};
ghost use Rattle.cert_linear.specs.Sums.{coefficient_of, entry_at, rest_at, IsTidy, IsSum, AreSum, IsPlus, IsSumWithin};
ghost use Rattle.cert_linear.specs.Sums.{IsListedIfPositive, HasAllPositive};

use cert_base::{Row, SIZE_LIMIT};
use pop_io::NoMemory;
use std::alloc::Global;

/// The greatest size of a multiplier times an `i64`.
pub(crate) const PRODUCT_LIMIT: u128 = 1 << 103;

/// The greatest size of a coefficient or the constant in a sum of `TERM_LIMIT` rows with multipliers.
pub(crate) const SUM_LIMIT: u128 = 1 << 119;

/// The greatest size of a coefficient or the constant where one more row may be added.
pub(crate) const ROOM_LIMIT: u128 = 1 << 120;

/// The greatest size of a coefficient while a row's terms are added.
pub(crate) const ENTER_LIMIT: u128 = 1 << 121;

/// The greatest size of what an entry holds.
pub(crate) const ENTRY_LIMIT: u128 = 1 << 31;

/// The greatest size of what did not fit into an entry.
pub(crate) const REST_LIMIT: u128 = 1 << 122;

/// What fits of the coefficient of a variable, and whether it is listed as touched.
#[derive(Clone, Copy)]
pub(crate) struct Entry {
    sum: i32,
    touched: bool,
}

const BLANK: Entry = Entry {
    sum: 0,
    touched: false,
};

/// A sum of rows, each with its multiplier: an entry for each variable up to the greatest ever given. It is reused for
/// the next sum, and only the touched entries are cleared and looked at.
/// The entries are small, so those of many variables stay in a processor's cache.
#[derive(Drop)]
pub(crate) struct Sum {
    entries: Vec<Entry>,
    touched: Vec<u32>,
    /// What did not fit into the entries, for each variable up to the greatest that has such a rest.
    rests: Vec<i128>,
    constant: i128,
}

impl Sum {
    pub(crate) fn new(alloc: Global) -> Sum
        ensures sum { IsSum no_row result }
        ensures size { IsSumWithin 0 result }
        ensures tidy { IsTidy result }
    {
        Sum {
            entries: Vec::new(alloc),
            touched: Vec::new(alloc),
            rests: Vec::new(alloc),
            constant: 0,
        }
    }

    /// Makes it the sum of no rows.
    pub(crate) fn clear(&mut self)
        requires { IsTidy self.old }
        ensures sum { IsSum no_row self.new }
        ensures size { IsSumWithin 0 self.new }
        ensures tidy { IsTidy self.new }
    {
        while let Some(variable) = self.touched.pop() {
            self.entries[variable as usize] = BLANK;
            self.clear_rest(variable);
        }
        self.constant = 0;
    }

    fn clear_rest(&mut self, variable: u32)
        ensures rests { (q : ℕ)
            → rest_at self.new.rests.items q ≡ (if variable == q then pos 0 else rest_at self.old.rests.items q) }
        ensures entries { self.new.entries ≡ self.old.entries }
        ensures touched { self.new.touched ≡ self.old.touched }
        ensures constant { self.new.constant ≡ self.old.constant }
    {
        if (variable as usize) < self.rests.len() {
            self.rests[variable as usize] = 0;
        }
    }

    /// Adds a row times a number.
    pub(crate) fn add(&mut self, row: &Row, by: i64) -> Result<(), NoMemory>
        requires tidy { IsTidy self.old }
        requires ascending { AreAscending row.now.terms }
        requires small { nat_abs by ≤ SIZE_LIMIT }
        requires room { IsSumWithin ROOM_LIMIT self.old }
        ensures plus { OnOk result (IsPlus (times by row.now) self.old self.new) }
        ensures size { (size : ℕ) → IsSumWithin size self.old
            → OnOk result (IsSumWithin (size + PRODUCT_LIMIT) self.new) }
        ensures tidy { IsTidy self.new }
    {
        for term in row.terms.as_slice() {
            self.enter(term.at, product(by, term.by))?;
        }
        self.constant += product(by, row.constant);
        Ok(())
    }

    /// Adds to the coefficient of one variable.
    fn enter(&mut self, variable: u32, by: i128) -> Result<(), NoMemory>
        requires tidy { IsTidy self.old }
        requires small { nat_abs by ≤ PRODUCT_LIMIT }
        requires room { nat_abs (coefficient_of self.old variable) ≤ ENTER_LIMIT }
        ensures terms { OnOk result
            ((q : ℕ)
            → coefficient_of self.new q ≡ (coefficient_of self.old q +ℤ (if variable == q then by else pos 0))) }
        ensures constant { self.new.constant ≡ self.old.constant }
        ensures tidy { IsTidy self.new }
    {
        self.reach(variable)?;
        self.touch(variable)?;
        self.enter_touched(variable, by)
    }

    /// Adds to the coefficient of a variable that is listed as touched.
    fn enter_touched(&mut self, variable: u32, by: i128) -> Result<(), NoMemory>
        requires tidy { IsTidy self.old }
        requires reached { variable < length self.old.entries.items }
        requires touched { (entry_at self.old.entries.items variable).touched ≡ true }
        requires small { nat_abs by ≤ PRODUCT_LIMIT }
        requires room { nat_abs (coefficient_of self.old variable) ≤ ENTER_LIMIT }
        ensures terms { OnOk result
            ((q : ℕ)
            → coefficient_of self.new q ≡ (coefficient_of self.old q +ℤ (if variable == q then by else pos 0))) }
        ensures constant { self.new.constant ≡ self.old.constant }
        ensures tidy { IsTidy self.new }
    {
        let fitting = self.entries[variable as usize].sum;
        match small_sum(fitting, by) {
            None => self.enter_rest(variable, by),
            Some(sum) => {
                self.entries[variable as usize].sum = sum;
                Ok(())
            }
        }
    }

    /// Adds to the rest of a touched variable what does not fit into its entry.
    fn enter_rest(&mut self, variable: u32, by: i128) -> Result<(), NoMemory>
        requires tidy { IsTidy self.old }
        requires touched { (entry_at self.old.entries.items variable).touched ≡ true }
        requires small { nat_abs by ≤ PRODUCT_LIMIT }
        requires room { nat_abs (rest_at self.old.rests.items variable) ≤ ENTER_LIMIT + ENTRY_LIMIT }
        ensures terms { OnOk result
            ((q : ℕ)
            → coefficient_of self.new q ≡ (coefficient_of self.old q +ℤ (if variable == q then by else pos 0))) }
        ensures constant { self.new.constant ≡ self.old.constant }
        ensures tidy { IsTidy self.new }
    {
        self.reach_rest(variable)?;
        self.rests[variable as usize] += by;
        Ok(())
    }

    /// Adds rests of 0 up to that of a variable.
    fn reach_rest(&mut self, variable: u32) -> Result<(), NoMemory>
        requires { IsTidy self.old }
        ensures reached { OnOk result (variable < length self.new.rests.items) }
        ensures same { (q : ℕ) → rest_at self.new.rests.items q ≡ rest_at self.old.rests.items q }
        ensures entries { self.new.entries ≡ self.old.entries }
        ensures touched { self.new.touched ≡ self.old.touched }
        ensures constant { self.new.constant ≡ self.old.constant }
    {
        while self.rests.len() <= variable as usize {
            self.rests.push(0)?;
        }
        Ok(())
    }

    /// Adds blank entries up to that of a variable.
    fn reach(&mut self, variable: u32) -> Result<(), NoMemory>
        requires { IsTidy self.old }
        ensures reached { OnOk result (variable < length self.new.entries.items) }
        ensures same { (q : ℕ) → coefficient_of self.new q ≡ coefficient_of self.old q }
        ensures constant { self.new.constant ≡ self.old.constant }
        ensures tidy { IsTidy self.new }
    {
        while self.entries.len() <= variable as usize {
            self.entries.push(BLANK)?;
        }
        Ok(())
    }

    /// Lists a variable as touched.
    fn touch(&mut self, variable: u32) -> Result<(), NoMemory>
        requires tidy { IsTidy self.old }
        requires reached { variable < length self.old.entries.items }
        ensures reached { length self.new.entries.items ≡ length self.old.entries.items }
        ensures touched { OnOk result ((entry_at self.new.entries.items variable).touched ≡ true) }
        ensures same { (q : ℕ) → coefficient_of self.new q ≡ coefficient_of self.old q }
        ensures constant { self.new.constant ≡ self.old.constant }
        ensures tidy { IsTidy self.new }
    {
        if self.entries[variable as usize].touched {
            return Ok(());
        }
        self.touched.push(variable)?;
        self.entries[variable as usize].touched = true;
        Ok(())
    }

    fn coefficient(&self, variable: u32) -> i128
        requires { IsTidy self.now }
        ensures { result ≡ coefficient_of self.now variable }
    {
        self.fitting(variable) + self.rest(variable)
    }

    fn fitting(&self, variable: u32) -> i128
        ensures value { result ≡ (entry_at self.now.entries.items variable).sum }
        ensures size { nat_abs result ≤ ENTRY_LIMIT }
    {
        match self.entries.get(variable as usize) {
            Some(entry) => i128::from(entry.sum),
            None => 0,
        }
    }

    fn rest(&self, variable: u32) -> i128
        ensures { result ≡ rest_at self.now.rests.items variable }
    {
        match self.rests.get(variable as usize) {
            Some(rest) => *rest,
            None => 0,
        }
    }

    /// The coefficient of a variable in both sums together.
    fn coefficient_with(&self, other: &Sum, variable: u32) -> i128
        requires own { IsTidy self.now × IsSumWithin SUM_LIMIT self.now }
        requires other { IsTidy other.now × IsSumWithin SUM_LIMIT other.now }
        ensures { result ≡ (coefficient_of self.now variable +ℤ coefficient_of other.now variable) }
    {
        self.coefficient(variable) + other.coefficient(variable)
    }

    /// Sets the list to the variables whose coefficient is above 0.
    pub(crate) fn list_positive(&self, positive: &mut Vec<u32>) -> Result<(), NoMemory>
        requires { IsTidy self.now }
        ensures { OnOk result (HasAllPositive self.now positive.new.items) }
    {
        self.list_positive_among(self.touched.as_slice(), positive)?;
        Ok(())
    }

    /// Sets the list to those of these variables whose coefficient is above 0.
    fn list_positive_among(
        &self,
        variables: &[u32],
        positive: &mut Vec<u32>,
    ) -> Result<(), NoMemory>
        requires { IsTidy self.now }
        ensures { OnOk result (All (IsListedIfPositive self.now positive.new.items) variables.now) }
    {
        positive.truncate(0);
        for variable in variables {
            self.push_positive(*variable, positive)?;
        }
        Ok(())
    }

    /// Adds a variable if its coefficient is above 0.
    fn push_positive(&self, variable: u32, positive: &mut Vec<u32>) -> Result<(), NoMemory>
        requires { IsTidy self.now }
        ensures listed { OnOk result (IsListedIfPositive self.now positive.new.items variable) }
        ensures stay { OnOk result ((q : ℕ) → Contains positive.old.items q → Contains positive.new.items q) }
    {
        if self.coefficient(variable) <= 0 {
            return Ok(());
        }
        positive.push(variable)?;
        Ok(())
    }

    /// Whether both sums together are below 0 at all counts: no coefficient is above 0, and the constant is below 0.
    /// Of the other sum it looks only at these variables: all whose coefficient there is above 0.
    pub(crate) fn is_negative_with(&self, other: &Sum, positive: &[u32]) -> bool
        requires own { IsTidy self.now × IsSumWithin SUM_LIMIT self.now }
        requires other { IsTidy other.now × IsSumWithin SUM_LIMIT other.now }
        requires positive { HasAllPositive other.now positive.now }
        ensures { (row : Row) → AreSum row self.now other.now
            → result ≡ (each_coefficient (λ a. int_le a (pos 0)) row && int_le row.constant (negsuc 0)) }
    {
        self.has_negative_constant_with(other) && self.have_no_positive(other, positive)
    }

    fn have_no_positive(&self, other: &Sum, positive: &[u32]) -> bool
        requires own { IsTidy self.now × IsSumWithin SUM_LIMIT self.now }
        requires other { IsTidy other.now × IsSumWithin SUM_LIMIT other.now }
        ensures { result
            ≡ (list_all
            (λ q. int_le (coefficient_of self.now q +ℤ coefficient_of other.now q) (pos 0)) self.now.touched.items
            && list_all (λ q. int_le (coefficient_of self.now q +ℤ coefficient_of other.now q) (pos 0)) positive.now) }
    {
        self.has_no_positive_among(other, self.touched.as_slice())
            && self.has_no_positive_among(other, positive)
    }

    fn has_negative_constant_with(&self, other: &Sum) -> bool
        requires own { IsSumWithin SUM_LIMIT self.now }
        requires other { IsSumWithin SUM_LIMIT other.now }
        ensures { result ≡ int_le (self.now.constant +ℤ other.now.constant) (negsuc 0) }
    {
        self.constant + other.constant < 0
    }

    /// Whether no listed variable has a coefficient above 0 in both sums together.
    fn has_no_positive_among(&self, other: &Sum, variables: &[u32]) -> bool
        requires own { IsTidy self.now × IsSumWithin SUM_LIMIT self.now }
        requires other { IsTidy other.now × IsSumWithin SUM_LIMIT other.now }
        ensures { result
            ≡ list_all
            (λ q. int_le (coefficient_of self.now q +ℤ coefficient_of other.now q) (pos 0)) variables.now }
    {
        variables
            .iter()
            .all(|q| self.coefficient_with(other, *q) <= 0)
    }

    /// Whether all coefficients and the constant are multiples of the modulus.
    pub(crate) fn vanishes(&self, modulus: u32) -> bool
        requires modulus { 0 < modulus }
        requires tidy { IsTidy self.now }
        ensures { (row : Row) → IsSum row self.now → result ≡ is_zero_row modulus row }
    {
        self.has_multiples(modulus) && divides(modulus, self.constant)
    }

    /// Whether all coefficients are multiples of the modulus, and the constant is none.
    pub(crate) fn is_constant(&self, modulus: u32) -> bool
        requires modulus { 0 < modulus }
        requires tidy { IsTidy self.now }
        ensures { (row : Row) → IsSum row self.now
            → result ≡ (each_coefficient (is_multiple modulus) row && not (is_multiple modulus row.constant)) }
    {
        self.has_multiples(modulus) && !divides(modulus, self.constant)
    }

    fn has_multiples(&self, modulus: u32) -> bool
        requires modulus { 0 < modulus }
        requires tidy { IsTidy self.now }
        ensures { (row : Row) → IsSum row self.now → result ≡ each_coefficient (is_multiple modulus) row }
    {
        self.has_multiple_values(modulus)
    }

    fn has_multiple_values(&self, modulus: u32) -> bool
        requires modulus { 0 < modulus }
        requires tidy { IsTidy self.now }
        ensures { result ≡ list_all (λ q. is_multiple modulus (coefficient_of self.now q)) self.now.touched.items }
    {
        self.touched
            .iter()
            .all(|q| divides(modulus, self.coefficient(*q)))
    }
}

/// The sum, if it fits into an entry.
fn small_sum(sum: i32, by: i128) -> Option<i32>
    requires { nat_abs by ≤ PRODUCT_LIMIT }
    ensures { IfSome result (λ total. total ≡ (sum +ℤ by)) }
{
    i32::try_from(i128::from(sum) + by).ok()
}

fn product(a: i64, b: i64) -> i128
    requires { nat_abs a ≤ SIZE_LIMIT }
    ensures value { result ≡ a *ℤ b }
    ensures size { nat_abs result ≤ PRODUCT_LIMIT }
{
    i128::from(a) * i128::from(b)
}

fn divides(modulus: u32, a: i128) -> bool
    requires { 0 < modulus }
    ensures { result ≡ is_multiple modulus a }
{
    a.unsigned_abs() % u128::from(modulus) == 0
}
