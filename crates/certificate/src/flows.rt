ghost use Rattle.std.specs.Prelude.{◌≡◌, ℕ, ◌*◌, ◌^◌, ◌<◌, ◌≤◌, pos, length, nat_eq, Contains, MatchBool, MatchResult, FitsSigned, slice_set, ◌+ℤ◌, ◌-ℤ◌};
ghost use Rattle.std.specs.Int.{w128};
ghost use Rattle.std.specs.HashMap as hash;
ghost use Rattle.std.specs.HashSet as bag;
ghost use Rattle.lists.specs.Distinct.{AreDistinct};
ghost use Rattle.fee_rate.specs.Limits.{IsRate, IsSum};
ghost use Rattle.graphs.specs.Certificates.{Certifies, HasFlows, rate_in, weight_in};
ghost use Rattle.certificate.specs.declared.fault.CheckFault.TheVariants as faults;
ghost use Rattle.certificate.specs.Accounts.{ArePayable, AreBalanced, AreInside, AreNet, AreOpen, IsEdge, IsOpen, KeepParts, account_at, amount_of, ends_of};
ghost use Rattle.certificate.specs.Fallings.{AreRates, AreSummed};
ghost use Rattle.certificate.specs.Faults.{Says};
ghost use Rattle.certificate.specs.Parts.{order_of, parts_of};
ghost use Rattle.graphs.specs.declared.names.Flow.{Flow};
ghost use Rattle.graphs.specs.Rates.{sums};
ghost use Rattle.places.specs.Places.{ArePlaces};
ghost use Rattle.certificate.specs.Tables.{AreInLimits, names_of};

use crate::falling::rate_of;
use crate::graph::Tables;
use crate::names::{Edges, Names, find, put_pair};
use crate::{CheckFault, Part};
use fee_rate::{FeeRate, Sum, product};
use graphs::{Flow, TxId};
use std::alloc::Global;
use std::collections::HashSet;

/// What a name gives less what it gets, among the flows of one part.
#[derive(Clone, Copy, Debug, PartialEq, Eq)]
pub(crate) struct Account {
    /// The part, counted from 1; 0: none yet.
    part: usize,
    net: i128,
}

/// Whether the flows certify each part.
pub(crate) fn check_flows(
    alloc: Global,
    txs: &[(TxId, i64, u64)],
    tables: &Tables,
    parts: &[Part],
) -> Result<(), CheckFault>
    requires places { ArePlaces (names_of txs.now) (hash.get nat_eq tables.now.names) }
    requires limits { AreInLimits txs.now }
    requires members { (id : ℕ) → Contains (order_of parts.now) id → Contains (names_of txs.now) id }
    requires rates { AreRates parts.now }
    requires summed { AreSummed txs.now parts.now }
    requires payable { ArePayable parts.now }
    ensures { MatchResult result
        (λ _. HasFlows (rate_in txs.now) (IsEdge tables.now) (parts_of parts.now))
        (Says faults.Flow (HasFlows (rate_in txs.now) (IsEdge tables.now) (parts_of parts.now))) }
{
    let mut accounts = vec![in alloc; Account { part: 0, net: 0 }; txs.len()]?;
    check_parts(alloc, accounts.as_mut_slice(), txs, tables, parts)
}

/// Whether the flows certify each part, with an account for each name.
fn check_parts(
    alloc: Global,
    accounts: &mut [Account],
    txs: &[(TxId, i64, u64)],
    tables: &Tables,
    parts: &[Part],
) -> Result<(), CheckFault>
    requires places { ArePlaces (names_of txs.now) (hash.get nat_eq tables.now.names) }
    requires limits { AreInLimits txs.now }
    requires members { (id : ℕ) → Contains (order_of parts.now) id → Contains (names_of txs.now) id }
    requires rates { AreRates parts.now }
    requires summed { AreSummed txs.now parts.now }
    requires payable { ArePayable parts.now }
    requires room { length (names_of txs.now) ≡ length accounts.old }
    requires none { (place : ℕ) → (account_at accounts.old place).part ≡ 0 }
    ensures { MatchResult result
        (λ _. HasFlows (rate_in txs.now) (IsEdge tables.now) (parts_of parts.now))
        (Says faults.Flow (HasFlows (rate_in txs.now) (IsEdge tables.now) (parts_of parts.now))) }
{
    for (at, part) in parts.iter().enumerate() {
        let ids = part.ids.as_slice();
        let flows = part.flows.as_slice();
        let mut seen = HashSet::with_capacity(alloc, flows.len())?;
        if !is_certified(
            accounts,
            &mut seen,
            txs,
            tables,
            at + 1,
            part.rate,
            ids,
            flows,
        ) {
            return Err(CheckFault::Flow);
        }
    }
    Ok(())
}

/// Whether flows certify a part, with an empty set that has room for their ends.
fn is_certified(
    accounts: &mut [Account],
    seen: &mut Edges,
    txs: &[(TxId, i64, u64)],
    tables: &Tables,
    part: usize,
    rate: Sum,
    ids: &[TxId],
    flows: &[Flow],
) -> bool
    requires places { ArePlaces (names_of txs.now) (hash.get nat_eq tables.now.names) }
    requires limits { AreInLimits txs.now }
    requires members { (id : ℕ) → Contains ids.now id → Contains (names_of txs.now) id }
    requires room { length (names_of txs.now) ≡ length accounts.old }
    requires later { (place : ℕ) → (account_at accounts.old place).part < part }
    requires rate { IsSum rate }
    requires summed { rate ≡ sums (rate_in txs.now) ids.now }
    requires some { (flow : Flow) → Contains flows.now flow → 1 ≤ flow.amount }
    requires total { amount_of flows.now < 2 ^ 127 }
    requires empty { bag.IsEmpty seen.old }
    requires spare { length flows.now ≤ bag.spare seen.old }
    ensures bound { (place : ℕ) → (account_at accounts.new place).part ≤ part }
    ensures certified { MatchBool result
        (Certifies (rate_in txs.now) (IsEdge tables.now) ids.now flows.now)
        (Certifies (rate_in txs.now) (IsEdge tables.now) ids.now flows.now → ⊥) }
{
    open(accounts, &tables.names, part, ids);
    if !flows_once(seen, flows) {
        return false;
    }
    if !flows_inside(accounts, tables, part, flows) {
        return false;
    }
    book(accounts, &tables.names, part, flows);
    is_balanced(accounts, txs, &tables.names, rate, ids)
}

/// Opens the accounts of a part's names.
fn open(accounts: &mut [Account], names: &Names, part: usize, ids: &[TxId])
    requires later { (place : ℕ) → (account_at accounts.old place).part < part }
    requires known { (id : ℕ) → Contains ids.now id → (place : ℕ) × (place < length accounts.old)
        × (hash.get nat_eq names.now id ≡ Some place) }
    ensures opened { AreOpen (hash.get nat_eq names.now) ids.now part accounts.new }
    ensures empty { (place : ℕ) → (account_at accounts.new place).part ≡ part
        → (account_at accounts.new place).net ≡ pos 0 }
{
    for id in ids {
        let place = place_of(names, *id);
        accounts[place] = Account { part, net: 0 };
    }
}

/// The place of a name.
fn place_of(names: &Names, id: TxId) -> usize
    requires { (place : ℕ) × (hash.get nat_eq names.now id ≡ Some place) }
    ensures { hash.get nat_eq names.now id ≡ Some result }
{
    match find(names, id) {
        Some(place) => place,
        None => unreachable!(),
    }
}

/// Whether no two flows have the same ends, with an empty set that has room for these.
fn flows_once(seen: &mut Edges, flows: &[Flow]) -> bool
    requires empty { bag.IsEmpty seen.old }
    requires room { length flows.now ≤ bag.spare seen.old }
    ensures { MatchBool result (AreDistinct (ends_of flows.now)) (AreDistinct (ends_of flows.now) → ⊥) }
{
    for flow in flows {
        if !put_pair(seen, (flow.child, flow.parent)) {
            return false;
        }
    }
    true
}

/// Whether each flow is on an edge, and its ends have accounts of the part.
fn flows_inside(accounts: &[Account], tables: &Tables, part: usize, flows: &[Flow]) -> bool
    requires { (id place : ℕ) → hash.get nat_eq tables.now.names id ≡ Some place → place < length accounts.now }
    ensures { MatchBool result
        (AreInside (hash.get nat_eq tables.now.names) (IsEdge tables.now) accounts.now part flows.now)
        (AreInside (hash.get nat_eq tables.now.names) (IsEdge tables.now) accounts.now part flows.now → ⊥) }
{
    for flow in flows {
        if !tables.edges.contains(&(flow.parent, flow.child)) {
            return false;
        }
        if !is_open(accounts, &tables.names, part, flow.child) {
            return false;
        }
        if !is_open(accounts, &tables.names, part, flow.parent) {
            return false;
        }
    }
    true
}

/// Whether a number is a name whose account is of the part.
fn is_open(accounts: &[Account], names: &Names, part: usize, id: TxId) -> bool
    requires { (place : ℕ) → hash.get nat_eq names.now id ≡ Some place → place < length accounts.now }
    ensures { MatchBool result (IsOpen (hash.get nat_eq names.now) accounts.now part id)
        (IsOpen (hash.get nat_eq names.now) accounts.now part id → ⊥) }
{
    match find(names, id) {
        Some(place) => accounts[place].part == part,
        None => false,
    }
}

/// Books flows into the accounts of their ends.
fn book(accounts: &mut [Account], names: &Names, part: usize, flows: &[Flow])
    requires inside { (flow : Flow) → Contains flows.now flow
        → IsOpen (hash.get nat_eq names.now) accounts.old part flow.child
        × IsOpen (hash.get nat_eq names.now) accounts.old part flow.parent }
    requires apart { (a b place : ℕ) → hash.get nat_eq names.now a ≡ Some place
        → hash.get nat_eq names.now b ≡ Some place → a ≡ b }
    requires empty { (place : ℕ) → (account_at accounts.old place).part ≡ part
        → (account_at accounts.old place).net ≡ pos 0 }
    requires total { amount_of flows.now < 2 ^ 127 }
    ensures parts { KeepParts accounts.old accounts.new }
    ensures net { AreNet (hash.get nat_eq names.now) part flows.now accounts.new }
{
    for flow in flows {
        let child = place_of(names, flow.child);
        let parent = place_of(names, flow.parent);
        pay(accounts, child, flow.amount);
        draw(accounts, parent, flow.amount);
    }
}

/// Adds an amount to an account.
fn pay(accounts: &mut [Account], place: usize, amount: u128)
    requires place_in { place < length accounts.old }
    requires small { amount < 2 ^ 127 }
    requires fits { FitsSigned w128 ((account_at accounts.old place).net +ℤ pos amount) }
    ensures { accounts.new ≡ slice_set accounts.old place record
        { part = (account_at accounts.old place).part; net = (account_at accounts.old place).net +ℤ pos amount } }
{
    accounts[place].net += amount as i128;
}

/// Takes an amount from an account.
fn draw(accounts: &mut [Account], place: usize, amount: u128)
    requires place_in { place < length accounts.old }
    requires small { amount < 2 ^ 127 }
    requires fits { FitsSigned w128 ((account_at accounts.old place).net -ℤ pos amount) }
    ensures { accounts.new ≡ slice_set accounts.old place record
        { part = (account_at accounts.old place).part; net = (account_at accounts.old place).net -ℤ pos amount } }
{
    accounts[place].net -= amount as i128;
}

/// Whether each name of a part gives, less what it gets, its weight in the part.
fn is_balanced(
    accounts: &[Account],
    txs: &[(TxId, i64, u64)],
    names: &Names,
    rate: Sum,
    ids: &[TxId],
) -> bool
    requires places { ArePlaces (names_of txs.now) (hash.get nat_eq names.now) }
    requires limits { AreInLimits txs.now }
    requires rate { IsSum rate }
    requires members { (id : ℕ) → Contains ids.now id → Contains (names_of txs.now) id }
    requires room { length (names_of txs.now) ≡ length accounts.now }
    ensures { MatchBool result
        (AreBalanced (hash.get nat_eq names.now) (rate_in txs.now) rate ids.now accounts.now)
        (AreBalanced (hash.get nat_eq names.now) (rate_in txs.now) rate ids.now accounts.now → ⊥) }
{
    for id in ids {
        let own = rate_of(txs, names, *id);
        let place = place_of(names, *id);
        if weight(rate, own) != accounts[place].net {
            return false;
        }
    }
    true
}

/// How far a rate is above that of a whole, times both sizes. Below 2^95 in absolute value.
fn weight(whole: Sum, own: FeeRate) -> i128
    requires whole_in { IsSum whole }
    requires own_in { IsRate own }
    ensures { result ≡ weight_in whole record { fee = own.fee; size = own.size } }
{
    let own = Sum::from(own);
    let above = product(own.fee, whole.size);
    let below = product(whole.fee, own.size);
    above - below
}
