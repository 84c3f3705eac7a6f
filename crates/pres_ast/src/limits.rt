//! The limits of a predicate's numbers. The limit of its variables is `VARIABLE_LIMIT` of `pop_io`.

/// The greatest size of a coefficient, 2^31.
pub const COEFFICIENT_LIMIT: u64 = 2_147_483_648;

/// The greatest size of a bound, 2^40.
pub const BOUND_LIMIT: u64 = 1_099_511_627_776;

/// The greatest modulus. The least is 2.
pub const MODULUS_LIMIT: u32 = 200;

/// The greatest number of nodes other than `Less`.
pub const WEIGHT_LIMIT: u32 = 64;

/// The greatest size of a coefficient times a count below 2^64.
pub(crate) const PRODUCT_LIMIT: u128 = 1 << 95;

/// The greatest size of the sum of `VARIABLE_LIMIT` such products.
pub(crate) const VALUE_LIMIT: u128 = 1 << 99;
