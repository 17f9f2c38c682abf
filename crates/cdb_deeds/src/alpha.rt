//! What a step of the Alpha machine did.

ghost use Rattle.std.specs.Prelude.{◌≡◌, ◌==◌, ◌<◌, nat_lt, length, IfSome};
ghost use Rattle.std.specs.List.{position};
ghost use Rattle.cdb_deeds.specs.Numbers.{number_of};
ghost use Rattle.cdb_deeds.specs.AlphaDeeds.{register_of_value, register_of_later, judges};
ghost use Rattle.cdb_deeds.specs.AlphaDeeds.{settles, query_deed, local_deed, alpha_deed};

use crate::deed::Deed;
use cdb_alpha::seen::{find_greatest_write, find_value};
use cdb_alpha::{Alpha, Place};
use cdb_base::{Cell, Kind, Proc};
use cdb_process::Process;

/// The index of the first cell that was written in that round.
fn index_of_write(cells: &[Cell], round: u32) -> Option<usize>
    ensures index { result ≡ position (λ cell. cell.lrww == round) cells.now }
    ensures within { IfSome result (λ index. index < length cells.now) }
{
    cells.iter().position(|it| it.lrww == round)
}

/// The number, from 1 on, of the first cell that was written in that round.
#[tactic(auto, using(crate::proofs::Numbers::number_by_position))]
fn number_of_write(cells: &[Cell], round: u32) -> Option<usize>
    ensures { result ≡ number_of (λ cell. cell.lrww == round) cells.now }
{
    Some(index_of_write(cells, round)? + 1)
}

/// The index of the first cell that was entered in a later round.
fn index_of_later(cells: &[Cell], round: u32) -> Option<usize>
    ensures index { result ≡ position (λ cell. nat_lt round cell.lre) cells.now }
    ensures within { IfSome result (λ index. index < length cells.now) }
{
    cells.iter().position(|it| round < it.lre)
}

/// The number, from 1 on, of the first cell that was entered in a later round.
#[tactic(auto, using(crate::proofs::Numbers::number_by_position))]
fn number_of_later(cells: &[Cell], round: u32) -> Option<usize>
    ensures { result ≡ number_of (λ cell. nat_lt round cell.lre) cells.now }
{
    Some(index_of_later(cells, round)? + 1)
}

/// The number of the register whose value is settled where the first pass ends: that of the cell that was written in
/// the latest round, the least where several were; none where no cell with a value was written.
pub fn register_of_value(machine: &Alpha) -> Option<usize>
    ensures { result ≡ register_of_value machine.now }
{
    let cells = machine.seen();
    if find_value(cells).is_none() {
        return None;
    }
    number_of_write(cells, find_greatest_write(cells))
}

/// The number of the least register that was entered in a later round.
fn register_of_later(machine: &Alpha) -> Option<usize>
    ensures { result ≡ register_of_later machine.now }
{
    number_of_later(machine.seen(), machine.round())
}

/// What the settling of a value did.
fn settles(machine: &Alpha) -> Deed
    ensures { result ≡ settles machine.now (register_of_value machine.now) }
{
    let value = find_value(machine.seen()).unwrap_or(machine.input());
    match register_of_value(machine) {
        Some(register) => Deed::SettlesRegister { value, register },
        None => Deed::SettlesInput(value),
    }
}

/// What the end of a pass did: the round is given up where another process entered a later one.
fn judges(machine: &Alpha, onward: Deed) -> Deed
    ensures { result ≡ judges machine.now onward (register_of_later machine.now) }
{
    match register_of_later(machine) {
        Some(register) => Deed::GivesUp {
            round: machine.round(),
            register,
        },
        None => onward,
    }
}

/// What a query of process `p` did.
fn query_deed(machine: &Alpha, p: Proc, leader: Proc) -> Deed
    ensures { result ≡ query_deed machine.now.place p machine.now leader }
{
    match machine.stands_at() {
        Place::A1 if leader == p => Deed::Round(machine.round()),
        _ => Deed::Nothing,
    }
}

/// What a local step did.
fn local_deed(machine: &Alpha) -> Deed
    ensures { result ≡ local_deed machine.now.place machine.now }
{
    match machine.stands_at() {
        Place::A4 => judges(machine, settles(machine)),
        Place::A7 => judges(machine, Deed::Carries(machine.round())),
        _ => Deed::Nothing,
    }
}

/// What a step of that kind does, which process `p` takes next, where its machine stands so.
pub fn alpha_deed(machine: &Alpha, p: Proc, kind: &Kind) -> Deed
    ensures { result ≡ alpha_deed p machine.now kind.now }
{
    match *kind {
        Kind::Query(leader) => query_deed(machine, p, leader),
        Kind::Local => local_deed(machine),
        _ => Deed::Nothing,
    }
}
