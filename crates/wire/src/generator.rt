//! Commands that a number gives, for large input without a file.
ghost use Rattle.std.specs.Prelude.{◌≡◌, ◌≢◌, ℕ, ◌<◌, ◌≤◌, ◌^◌, List};
ghost use Rattle.graph_model.specs.Generators.{draw, drawn_near, drawn_fee, drawn_add, drawn_dep, drawn_change, drawn_remove, drawn_command};
ghost use Rattle.graph_model.specs.Lines.{Says};
ghost use Rattle.wire.specs.Readings.{meaning_of};

use crate::line::Line;
use graph_model::TxId;
use std::marker::Model;

/// Draws commands, one after another. It is seen as its state, a number below 2^31.
#[derive(Debug, Drop)]
pub struct Generator {
    state: u64,
}

impl Model for Generator {
    ghost use Rattle.std.specs.Prelude.{ℕ, ◌<◌, ◌^◌};

    ghost Value = { ℕ };

    ghost view = { λ a. a.state };

    ghost invariant = { λ a. a.state < 2 ^ 31 };
}

impl Generator {
    /// A generator whose first state is the seed.
    pub fn new(seed: u64) -> Generator
        requires { seed < 2 ^ 31 }
        ensures { result ≡ seed }
    {
        Generator { state: seed }
    }

    /// Draws the `k`-th command, which is of a form that the program does, and no `mine`.
    pub fn next(&mut self, k: u64) -> Line
        requires { 1 ≤ k }
        ensures command { (ids : List ℕ) → meaning_of result ids ≡ Says (drawn_command k self.old).0 }
        ensures not_mine { result ≢ Line.Mine }
        ensures state { self.new ≡ (drawn_command k self.old).1 }
    {
        match self.draw(20) {
            0..=7 => self.add(k),
            8..=13 => self.dep(k),
            14 => self.change(k),
            15 => self.remove(k),
            16 => Line::Stage,
            17 => Line::Commit,
            18 => Line::Abort,
            _ => Line::Compare,
        }
    }

    /// Draws a new name's fee and then its size.
    fn add(&mut self, k: u64) -> Line
        ensures command { (ids : List ℕ) → meaning_of result ids ≡ Says (drawn_add k self.old).0 }
        ensures not_mine { result ≢ Line.Mine }
        ensures state { self.new ≡ (drawn_add k self.old).1 }
    {
        let fee = self.fee();
        let size = 100 + self.draw(900);
        Line::Add(k, fee, size)
    }

    /// Draws a child and then a parent near it.
    fn dep(&mut self, k: u64) -> Line
        requires { 1 ≤ k }
        ensures command { (ids : List ℕ) → meaning_of result ids ≡ Says (drawn_dep k self.old).0 }
        ensures not_mine { result ≢ Line.Mine }
        ensures state { self.new ≡ (drawn_dep k self.old).1 }
    {
        let child = self.near(k);
        let parent = self.near(child);
        Line::Dep(parent, child)
    }

    /// Draws a name and then its new fee.
    fn change(&mut self, k: u64) -> Line
        requires { 1 ≤ k }
        ensures command { (ids : List ℕ) → meaning_of result ids ≡ Says (drawn_change k self.old).0 }
        ensures not_mine { result ≢ Line.Mine }
        ensures state { self.new ≡ (drawn_change k self.old).1 }
    {
        let id = self.near(k);
        Line::Fee(id, self.fee())
    }

    /// Draws a name that goes.
    fn remove(&mut self, k: u64) -> Line
        requires { 1 ≤ k }
        ensures command { (ids : List ℕ) → meaning_of result ids ≡ Says (drawn_remove k self.old).0 }
        ensures not_mine { result ≢ Line.Mine }
        ensures state { self.new ≡ (drawn_remove k self.old).1 }
    {
        Line::Remove(self.near(k))
    }

    /// Draws one of the last 64 numbers up to `k`, none of them 0.
    fn near(&mut self, k: TxId) -> TxId
        requires { 1 ≤ k }
        ensures id { result ≡ (drawn_near self.old k).0 }
        ensures some { 1 ≤ result }
        ensures state { self.new ≡ (drawn_near self.old k).1 }
    {
        k - self.draw(k.min(64))
    }

    /// Draws a fee from -1,000 to 8,999.
    fn fee(&mut self) -> i64
        ensures fee { result ≡ (drawn_fee self.old).0 }
        ensures state { self.new ≡ (drawn_fee self.old).1 }
    {
        self.draw(10000) as i64 - 1000
    }

    /// Draws a number below `m`.
    fn draw(&mut self, m: u64) -> u64
        requires { 1 ≤ m }
        ensures value { result ≡ (draw self.old m).0 }
        ensures below { result < m }
        ensures state { self.new ≡ (draw self.old m).1 }
    {
        self.state = (1_103_515_245 * self.state + 12_345) % (1 << 31);
        self.state / 65_536 % m
    }
}
