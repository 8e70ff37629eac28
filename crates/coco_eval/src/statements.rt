//! The run of statements, from their start or from a place within them.
ghost use Rattle.std.specs.Prelude.{◌≡◌, ℕ, ◌+◌, ◌-◌, ◌*◌, ◌<◌, ◌≤◌, ◌^◌, true, Some, pos, [], ◌∷◌, ◌++◌, length, reverse, vec_capacity};
ghost use Rattle.coco_ast.specs.Checks.{key_weight};
ghost use Rattle.coco_ast.specs.Meaning.{value_of, key_of};
ghost use Rattle.coco_ast.specs.Plans.{name_at, depth_one, depth};
ghost use Rattle.coco_eval.specs.Planned.{expression_by, place_by, statement_by, statements_by};
ghost use Rattle.coco_types.specs.Limits.{most_bound};
ghost use Rattle.coco_types.specs.declared.call.Reply.TheVariants.{Ok as Answers, Refused};
ghost use Rattle.coco_types.specs.declared.value.Value.TheVariants.{Int};
ghost use Rattle.coco_eval.specs.Lending.{datum_of};
ghost use Rattle.coco_eval.specs.Moves.{named, kept_of, MovesBlock, MovesGet, MovesOne, MovesTurns, ReadMoves, Settles, HasRoom, on_way};
ghost use Rattle.coco_eval.specs.Places.{Goes, Ends, with, with_variable, with_write, newest, turns, runs, from, chosen, goes_on_repeat, goes_on, weight_get, weight_repeat, weight_one, weight_on, are_bounded_in, are_bounded};

use crate::keys::{given, key, put, written};
use crate::machine::{Frame, Given, Machine, Stop, Way};
use crate::operand::{Operand, lend, number, owned, store};
use coco_ast::{Name, Plan, PlanStep, Spot};
use coco_types::{Cause, Key, Reply};

impl Machine {
    /// Runs a block from a place in it on.
    #[cycle(run)]
    #[inline(always)]
    pub fn block(
        &mut self,
        tables: &[Name],
        plan: &Plan,
        block: &[PlanStep],
        path: &[Frame],
    ) -> Stop
        requires tables { length tables.now < 2 ^ 16 }
        requires bounded { are_bounded (statements_by plan.now block.now) ≡ true }
        requires room { HasRoom plan.now.names (weight_on (reverse path.now) (statements_by plan.now block.now)) (depth (statements_by plan.now block.now)) self.old }
        ensures { MovesBlock result tables.now (statements_by plan.now block.now)
            (λ m. goes_on m tables.now (reverse path.now) (statements_by plan.now block.now) (kept_of self.old))
            (weight_on (reverse path.now) (statements_by plan.now block.now)) self.old self.new }
    {
        match path.split_last() {
            None => self.behind(tables, plan, block, 0),
            Some((frame, inner)) => self.within(tables, plan, block, *frame, inner),
        }
    }

    // Goes on within a statement of a block, and then with those behind it.
    #[cycle(run)]
    #[inline(always)]
    fn within(
        &mut self,
        tables: &[Name],
        plan: &Plan,
        block: &[PlanStep],
        frame: Frame,
        inner: &[Frame],
    ) -> Stop
        requires tables { length tables.now < 2 ^ 16 }
        requires bounded { are_bounded (statements_by plan.now block.now) ≡ true }
        requires room { HasRoom plan.now.names (weight_on (frame ∷ reverse inner.now) (statements_by plan.now block.now)) (depth (statements_by plan.now block.now)) self.old }
        ensures { MovesBlock result tables.now (statements_by plan.now block.now)
            (λ m. goes_on m tables.now (frame ∷ reverse inner.now) (statements_by plan.now block.now) (kept_of self.old))
            (weight_on (frame ∷ reverse inner.now) (statements_by plan.now block.now)) self.old self.new }
    {
        if frame.at >= block.len() {
            return Stop::Goes;
        }
        match self.statement(tables, plan, &block[frame.at], frame.way, inner) {
            Stop::Goes => self.behind(tables, plan, block, frame.at + 1),
            Stop::Asks(way) => self.stand(frame.at, way),
            Stop::Ends => Stop::Ends,
        }
    }

    // Runs a block from one of its statements on.
    #[cycle(run)]
    fn behind(&mut self, tables: &[Name], plan: &Plan, block: &[PlanStep], first: usize) -> Stop
        requires tables { length tables.now < 2 ^ 16 }
        requires bounded { are_bounded (statements_by plan.now block.now) ≡ true }
        requires first { first ≤ length block.now }
        requires room { HasRoom plan.now.names (key_weight (from first (statements_by plan.now block.now))) (depth (statements_by plan.now block.now)) self.old }
        ensures { MovesBlock result tables.now (statements_by plan.now block.now)
            (λ m. runs m tables.now (from first (statements_by plan.now block.now)) (kept_of self.old))
            (key_weight (from first (statements_by plan.now block.now))) self.old self.new }
    {
        for at in first..block.len() {
            match self.fresh(tables, plan, &block[at]) {
                Stop::Goes => {}
                Stop::Asks(way) => return self.stand(at, way),
                Stop::Ends => return Stop::Ends,
            }
        }
        Stop::Goes
    }

    // Stops at the statement at a place, which stands so itself.
    fn stand(&mut self, at: usize, way: Way) -> Stop
        requires { length self.old.path.items < vec_capacity self.old.path }
        ensures stop { result ≡ Stop.Asks way }
        ensures path { self.new.path.items ≡ self.old.path.items ++ record { at = at; way = way } ∷ [] }
        ensures room { vec_capacity self.new.path ≡ vec_capacity self.old.path }
        ensures others { self.new ≡ record self.old { path = self.new.path } }
    {
        self.path.push_reserved(Frame { at, way });
        Stop::Asks(way)
    }

    // Runs a statement from its start.
    #[cycle(run)]
    fn fresh(&mut self, tables: &[Name], plan: &Plan, statement: &PlanStep) -> Stop
        requires tables { length tables.now < 2 ^ 16 }
        requires bounded { are_bounded_in (statement_by plan.now statement.now) ≡ true }
        requires room { HasRoom plan.now.names (weight_one Way.Fresh (weight_on []) (statement_by plan.now statement.now)) (depth_one (statement_by plan.now statement.now)) self.old }
        ensures { MovesOne result tables.now (statement_by plan.now statement.now) Way.Fresh [] self.old self.new }
    {
        match statement {
            PlanStep::Let { slot, value } => self.assign(plan, *slot, *value),
            PlanStep::Get { slot, spot } => self.ask(tables, plan, *slot, spot),
            PlanStep::Put { spot, value } => self.put(tables, plan, spot, *value),
            PlanStep::Delete { spot } => self.delete(tables, plan, spot),
            PlanStep::If {
                test,
                yes,
                no: None,
            } => match self.takes_first(plan, *test, Way::Fresh) {
                Ok(true) => on_way(self.block(tables, plan, yes, &[]), Way::Then),
                Ok(false) => Stop::Goes,
                Err(cause) => self.refuse(cause),
            },
            PlanStep::If {
                test,
                yes,
                no: Some(no),
            } => match self.takes_first(plan, *test, Way::Fresh) {
                Ok(true) => on_way(self.block(tables, plan, yes, &[]), Way::Then),
                Ok(false) => on_way(self.block(tables, plan, no, &[]), Way::Else),
                Err(cause) => self.refuse(cause),
            },
            PlanStep::Repeat { bound, slot, block } => {
                self.repeat(tables, plan, *bound, *slot, block, Way::Fresh, &[])
            }
            PlanStep::Refuse(number) => self.refuse(Cause::User(*number)),
            PlanStep::Reply(value) => self.answer(plan, *value),
        }
    }

    // Runs a statement from a place within it on.
    #[cycle(run)]
    fn statement(
        &mut self,
        tables: &[Name],
        plan: &Plan,
        statement: &PlanStep,
        way: Way,
        inner: &[Frame],
    ) -> Stop
        requires tables { length tables.now < 2 ^ 16 }
        requires bounded { are_bounded_in (statement_by plan.now statement.now) ≡ true }
        requires room { HasRoom plan.now.names (weight_one way (weight_on (reverse inner.now)) (statement_by plan.now statement.now)) (depth_one (statement_by plan.now statement.now)) self.old }
        ensures { MovesOne result tables.now (statement_by plan.now statement.now) way (reverse inner.now) self.old self.new }
    {
        match statement {
            PlanStep::Get { slot, spot } => self.get(tables, plan, *slot, spot, way),
            PlanStep::If {
                test,
                yes,
                no: None,
            } => match self.takes_first(plan, *test, way) {
                Ok(true) => on_way(self.block(tables, plan, yes, inner), Way::Then),
                Ok(false) => Stop::Goes,
                Err(cause) => self.refuse(cause),
            },
            PlanStep::If {
                test,
                yes,
                no: Some(no),
            } => match self.takes_first(plan, *test, way) {
                Ok(true) => on_way(self.block(tables, plan, yes, inner), Way::Then),
                Ok(false) => on_way(self.block(tables, plan, no, inner), Way::Else),
                Err(cause) => self.refuse(cause),
            },
            PlanStep::Repeat { bound, slot, block } => {
                self.repeat(tables, plan, *bound, *slot, block, way, inner)
            }
            PlanStep::Let { .. }
            | PlanStep::Put { .. }
            | PlanStep::Delete { .. }
            | PlanStep::Refuse(_)
            | PlanStep::Reply(_) => self.fresh(tables, plan, statement),
        }
    }

    #[cycle(run)]
    fn repeat(
        &mut self,
        tables: &[Name],
        plan: &Plan,
        bound: u64,
        slot: usize,
        block: &[PlanStep],
        way: Way,
        inner: &[Frame],
    ) -> Stop
        requires tables { length tables.now < 2 ^ 16 }
        requires bounded { are_bounded (statements_by plan.now block.now) ≡ true }
        requires turns { bound ≤ most_bound }
        requires room { HasRoom plan.now.names (weight_repeat way (weight_on (reverse inner.now)) bound (statements_by plan.now block.now)) (depth (statements_by plan.now block.now)) self.old }
        ensures { MovesTurns result tables.now bound (name_at plan.now.names slot) (statements_by plan.now block.now)
            (λ m. goes_on_repeat way (goes_on m tables.now (reverse inner.now)) (runs m tables.now) bound (name_at plan.now.names slot) (statements_by plan.now block.now) (kept_of self.old))
            (weight_repeat way (weight_on (reverse inner.now)) bound (statements_by plan.now block.now)) self.old self.new }
    {
        match way {
            Way::Turn(turn) => match self.block(tables, plan, block, inner) {
                Stop::Goes if u64::from(turn) < bound => {
                    self.turns(tables, plan, u64::from(turn) + 1, bound, slot, block)
                }
                stop => on_way(stop, way),
            },
            _ => self.turns(tables, plan, 0, bound, slot, block),
        }
    }

    // The turns of a `repeat` from one of them on.
    #[cycle(run)]
    fn turns(
        &mut self,
        tables: &[Name],
        plan: &Plan,
        first: u64,
        bound: u64,
        slot: usize,
        block: &[PlanStep],
    ) -> Stop
        requires tables { length tables.now < 2 ^ 16 }
        requires bounded { are_bounded (statements_by plan.now block.now) ≡ true }
        requires turns { bound ≤ most_bound }
        requires first { first ≤ bound }
        requires room { HasRoom plan.now.names ((bound - first) * key_weight (statements_by plan.now block.now)) (depth (statements_by plan.now block.now)) self.old }
        ensures { MovesTurns result tables.now bound (name_at plan.now.names slot) (statements_by plan.now block.now)
            (λ m. turns (runs m tables.now (statements_by plan.now block.now)) (name_at plan.now.names slot) (bound - first) first (kept_of self.old))
            ((bound - first) * key_weight (statements_by plan.now block.now)) self.old self.new }
    {
        for turn in first..bound {
            self.count(slot, turn);
            match self.block(tables, plan, block, &[]) {
                Stop::Goes => {}
                stop => return on_way(stop, Way::Turn(turn as u8)),
            }
        }
        Stop::Goes
    }

    // Sets the counter of a `repeat`.
    fn count(&mut self, slot: usize, turn: u64)
        requires turn { turn < 2 ^ 63 }
        ensures kept { kept_of self.new ≡ with_variable (kept_of self.old) (name_at (named self.old) slot) (Some (Int (pos turn))) }
        ensures names { named self.new ≡ named self.old }
        ensures others { self.new ≡ record self.old { variables = self.new.variables } }
    {
        self.variables.set(slot, &Operand::Int(turn as i64));
    }

    fn assign(&mut self, plan: &Plan, slot: usize, value: usize) -> Stop
        requires names { named self.old ≡ plan.now.names }
        ensures { Settles result
            (with (kept_of self.old) (value_of (kept_of self.old).variables (expression_by plan.now value)) (λ d. Goes (with_variable (kept_of self.old) (name_at plan.now.names slot) d)))
            0 self.old self.new }
    {
        let text = match crate::values::value(&plan.terms, value, &self.variables) {
            Ok(Operand::None) => return self.set(slot, &Operand::None),
            Ok(Operand::Int(number)) => return self.set(slot, &Operand::Int(number)),
            Ok(Operand::Text(text)) => *text,
            Ok(Operand::Literal(literal)) => literal.text(),
            Err(cause) => return self.refuse(cause),
        };
        self.set(slot, &Operand::Text(&text))
    }

    fn set(&mut self, slot: usize, value: &Operand<'_>) -> Stop
        ensures { Settles result (Goes (with_variable (kept_of self.old) (name_at (named self.old) slot) (datum_of value.now))) 0 self.old self.new }
    {
        self.variables.set(slot, value);
        Stop::Goes
    }

    fn get(&mut self, tables: &[Name], plan: &Plan, slot: usize, spot: &Spot, way: Way) -> Stop
        requires tables { length tables.now < 2 ^ 16 }
        requires room { HasRoom plan.now.names (weight_get way) 0 self.old }
        ensures { MovesGet result tables.now (name_at plan.now.names slot) (place_by plan.now spot.now) way self.old self.new }
    {
        match way {
            Way::Given => {
                self.variables.set(slot, &newest(&self.given));
                Stop::Goes
            }
            _ => self.ask(tables, plan, slot, spot),
        }
    }

    fn ask(&mut self, tables: &[Name], plan: &Plan, slot: usize, spot: &Spot) -> Stop
        requires tables { length tables.now < 2 ^ 16 }
        requires room { HasRoom plan.now.names 1 0 self.old }
        ensures { MovesGet result tables.now (name_at plan.now.names slot) (place_by plan.now spot.now) Way.Fresh self.old self.new }
    {
        match key(tables, &plan.terms, &self.variables, spot) {
            Ok(key) => self.read(slot, key),
            Err(cause) => self.refuse(cause),
        }
    }

    // Sets a variable to what is known of a key, or asks for it.
    fn read(&mut self, slot: usize, key: Key) -> Stop
        ensures { ReadMoves result (name_at (named self.old) slot) key self.old self.new }
    {
        if let Some(value) = written(&self.writes, key) {
            self.variables.set(slot, &lend(value));
            return Stop::Goes;
        }
        if let Some(value) = given(&self.given, key) {
            self.variables.set(slot, &lend(value));
            return Stop::Goes;
        }
        self.asked = key;
        Stop::Asks(Way::Given)
    }

    fn put(&mut self, tables: &[Name], plan: &Plan, spot: &Spot, value: usize) -> Stop
        requires tables { length tables.now < 2 ^ 16 }
        requires room { HasRoom plan.now.names 1 0 self.old }
        ensures { Settles result
            (with (kept_of self.old) (key_of tables.now (kept_of self.old).variables (place_by plan.now spot.now)) (λ k.
            with (kept_of self.old) (value_of (kept_of self.old).variables (expression_by plan.now value)) (λ d. Goes (with_write (kept_of self.old) k d))))
            1 self.old self.new }
    {
        match key(tables, &plan.terms, &self.variables, spot) {
            Ok(key) => self.put_at(plan, key, value),
            Err(cause) => self.refuse(cause),
        }
    }

    fn put_at(&mut self, plan: &Plan, key: Key, value: usize) -> Stop
        requires names { named self.old ≡ plan.now.names }
        requires room { length self.old.writes.items < vec_capacity self.old.writes }
        ensures { Settles result
            (with (kept_of self.old) (value_of (kept_of self.old).variables (expression_by plan.now value)) (λ d. Goes (with_write (kept_of self.old) key d)))
            1 self.old self.new }
    {
        match crate::values::value(&plan.terms, value, &self.variables) {
            Ok(value) => {
                put(&mut self.writes, key, &value);
                Stop::Goes
            }
            Err(cause) => self.refuse(cause),
        }
    }

    fn delete(&mut self, tables: &[Name], plan: &Plan, spot: &Spot) -> Stop
        requires tables { length tables.now < 2 ^ 16 }
        requires room { HasRoom plan.now.names 1 0 self.old }
        ensures { Settles result
            (with (kept_of self.old) (key_of tables.now (kept_of self.old).variables (place_by plan.now spot.now)) (λ k. Goes (with_write (kept_of self.old) k None)))
            1 self.old self.new }
    {
        match key(tables, &plan.terms, &self.variables, spot) {
            Ok(key) => {
                put(&mut self.writes, key, &Operand::None);
                Stop::Goes
            }
            Err(cause) => self.refuse(cause),
        }
    }

    // Whether the first block of an `if` is taken.
    #[inline(always)]
    fn takes_first(&self, plan: &Plan, test: usize, way: Way) -> Result<bool, Cause>
        requires names { named self.now ≡ plan.now.names }
        ensures { result ≡ chosen way (kept_of self.now) (expression_by plan.now test) }
    {
        match way {
            Way::Then => Ok(true),
            Way::Else => Ok(false),
            _ => match crate::values::value(&plan.terms, test, &self.variables) {
                Ok(value) => match number(&value) {
                    Ok(number) => Ok(number != 0),
                    Err(cause) => Err(cause),
                },
                Err(cause) => Err(cause),
            },
        }
    }

    fn answer(&mut self, plan: &Plan, value: usize) -> Stop
        requires names { named self.old ≡ plan.now.names }
        ensures { Settles result
            (with (kept_of self.old) (value_of (kept_of self.old).variables (expression_by plan.now value)) (λ d. Ends (kept_of self.old) (Answers d)))
            0 self.old self.new }
    {
        match crate::values::value(&plan.terms, value, &self.variables) {
            Ok(value) => {
                reply_with(&mut self.reply, &value);
                Stop::Ends
            }
            Err(cause) => self.refuse(cause),
        }
    }

    fn refuse(&mut self, cause: Cause) -> Stop
        ensures stop { result ≡ Stop.Ends }
        ensures reply { self.new ≡ record self.old { reply = Refused cause } }
    {
        self.reply = Reply::Refused(cause);
        Stop::Ends
    }
}

fn reply_with(reply: &mut Reply, value: &Operand<'_>)
    ensures { reply.new ≡ Answers (datum_of value.now) }
{
    match reply {
        Reply::Ok(slot) => store(slot, value),
        Reply::Refused(_) => *reply = Reply::Ok(owned(value)),
    }
}

// The value that was given last.
fn newest(values: &[Given]) -> Operand<'_>
    ensures { datum_of result ≡ newest values.now }
{
    match values.last() {
        Some(given) => lend(&given.value),
        None => Operand::None,
    }
}

// The same stop, on another way.
fn on_way(stop: Stop, way: Way) -> Stop
    ensures { result ≡ on_way stop way }
{
    match stop {
        Stop::Asks(_) => Stop::Asks(way),
        Stop::Goes | Stop::Ends => stop,
    }
}
