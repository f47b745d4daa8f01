//! The order of rows.

ghost use Rattle.std.specs.Prelude.{◌≡◌, List, Option};
ghost use Rattle.std.specs.List.Sorted.{IsPermutation, IsSortedBy};
ghost use Rattle.std.specs.Ordering.{is_lt};
ghost use Rattle.rdm_survey.specs.Orders.{address_of, number_cmp, text_cmp, key_cmp, row_cmp};

use crate::Row;
use rdm_frame::Text;
use std::cmp::Ordering;

/// By what rows are put in order. Rows that are equal there go by their UIDs, and those that don't tell it come last.
#[derive(Clone, Copy, Debug, PartialEq, Eq)]
pub enum Order {
    /// By UID.
    Uid,
    /// By the start address of the root.
    Address,
    /// By model description, byte by byte.
    Model,
    /// By label, byte by byte.
    Label,
}

/// Puts rows in order.
pub fn sort(rows: &mut [Row], order: Order)
    ensures permutation { IsPermutation rows.old rows.new }
    ensures sorted { IsSortedBy (λ a b. is_lt (row_cmp order a b)) rows.new }
{
    rows.sort_unstable_by(|a, b| row_cmp(order, a, b));
}

/// How two rows compare.
fn row_cmp(order: Order, a: &Row, b: &Row) -> Ordering
    ensures { result ≡ row_cmp order a.now b.now }
{
    key_cmp(order, a, b).then(a.uid.number().cmp(&b.uid.number()))
}

/// How their keys compare.
fn key_cmp(order: Order, a: &Row, b: &Row) -> Ordering
    ensures { result ≡ key_cmp order a.now b.now }
{
    match order {
        Order::Uid => Ordering::Equal,
        Order::Address => number_cmp(address_of(a), address_of(b)),
        Order::Model => text_cmp(&a.model, &b.model),
        Order::Label => text_cmp(&a.label, &b.label),
    }
}

/// The start address of the root, if it is known and there is one.
fn address_of(row: &Row) -> Option<u16>
    ensures { result ≡ address_of row.now }
{
    match &row.device {
        Some(device) => device.address,
        None => None,
    }
}

/// How two numbers compare, of which one that isn't told comes last.
fn number_cmp(a: Option<u16>, b: Option<u16>) -> Ordering
    ensures { result ≡ number_cmp a b }
{
    match (a, b) {
        (Some(a), Some(b)) => a.cmp(&b),
        (Some(_), None) => Ordering::Less,
        (None, Some(_)) => Ordering::Greater,
        (None, None) => Ordering::Equal,
    }
}

/// How two texts compare, of which one that isn't told comes last.
fn text_cmp(a: &Option<Text>, b: &Option<Text>) -> Ordering
    ensures { result ≡ text_cmp a.now b.now }
{
    match (a, b) {
        (Some(a), Some(b)) => a.as_slice().cmp(&b.as_slice()),
        (Some(_), None) => Ordering::Less,
        (None, Some(_)) => Ordering::Greater,
        (None, None) => Ordering::Equal,
    }
}
