//! The emission of terms of each form and of statements.

ghost use Rattle.std.specs.Prelude.{◌≡◌, ◌<◌, ◌≤◌, ◌+◌, ◌^◌, [], ◌∷◌, flat_map, length, drop, OnOk};
ghost use Rattle.std.specs.Prelude.{IfOk};
ghost use Rattle.std.specs.List.{slice_range};
ghost use Rattle.lb_expand.specs.Emit.{copied};
ghost use Rattle.lb_expand.specs.EmitTerms as mirror;
ghost use Rattle.lb_expand.specs.Frames.{place_of, placed_state, stacked, with_copies, HasPlaces};
ghost use Rattle.lb_expand.specs.Frames.{HasRoom};
ghost use Rattle.lb_flat.specs.Programs.{numbers_of};
ghost use Rattle.lb_expand.specs.TermEmissions.{state_of, emitted_of, with_asserted, above, on_top};
ghost use Rattle.lb_expand.specs.TermEmissions.{on_two};
ghost use Rattle.lb_static.specs.TermForms.{HasOne, HasTwo, HasRow};
ghost use Rattle.lb_flat.specs.Values.{scalar_of};

use crate::expansion::frame::{Cursor, Frame};
use crate::expansion::operators::{Pair, Unary};
use crate::expansion::term_emission::TermEmission;
use lb_flat::{ElementId, Operation, Scalar};
use lb_static::{ResolvedStatement, Term, VariableId};
use std::alloc::AllocError;

/// A literal; one that is no `int` has the value of a fault.
fn literal(value: u32) -> Scalar
    ensures { scalar_of result ≡ mirror.literal value }
{
    if value <= i32::MAX as u32 {
        Scalar::Integer(value as i32)
    } else {
        Scalar::Bad
    }
}

/// The place after a term that has no parts; for a term with parts, the place of the first part.
fn next_term(at: Cursor) -> Cursor
    requires { at.term + 1 < 2 ^ 64 }
    ensures { place_of result ≡ mirror.next_term (place_of at) }
{
    Cursor {
        term: at.term + 1,
        call: at.call,
    }
}

/// The place of the row of operands of a term.
fn row_place(at: Cursor, term: &Term) -> Cursor
    requires { HasPlaces (mirror.row_place (place_of at) term.now) }
    ensures { place_of result ≡ mirror.row_place (place_of at) term.now }
{
    match term {
        Term::Call(_, _) | Term::IterateNode(_, _, _) => Cursor {
            term: at.term + 1,
            call: at.call + 1,
        },
        _ => next_term(at),
    }
}

impl TermEmission {
    /// Emits a term whose one operand has the elements of the stack from place `from` on.
    fn with_one<F: Frame>(
        &mut self,
        frame: &F,
        term: &Term,
        at: Cursor,
        from: usize,
    ) -> Result<(), AllocError>
        requires clocks { F.clocks frame.now ≡ self.old.clocks.items }
        requires form { HasOne term.now }
        requires place { at.term + 1 < 2 ^ 64 }
        requires from { from ≤ length self.old.found.items }
        requires room { (mirror.with_one (F.context frame.now) (place_of at) term.now
            (above from (emitted_of self.old))).state.next < 2 ^ 32 }
        ensures emitted { OnOk result (emitted_of self.new
            ≡ on_top from (mirror.with_one (F.context frame.now) (place_of at) term.now)
            (emitted_of self.old)) }
        ensures clocks { OnOk result (self.new.clocks ≡ self.old.clocks) }
    {
        let clock = frame.clock(at.term);
        match term {
            Term::Unary(op, _) => self.each(clock, Unary::Data(*op), from),
            Term::Pre(_) => self.memory(clock, Unary::Previous, from),
            Term::Current(_) => self.memory(clock, Unary::Latest, from),
            Term::When(_, x, sign) => self.each(frame.sampled(*x, *sign), Unary::Sample, from),
            Term::Replicate(_, n) => self.copies(from, frame.count(*n)),
            Term::Index(_, i) => {
                let parts = frame.parts(at.term + 1) as usize;
                self.pick(from, parts * frame.count(*i) as usize, parts);
                Ok(())
            }
            Term::Slice(_, i, j) => {
                let parts = frame.parts(at.term + 1) as usize;
                let start = frame.count(*i) as usize;
                let count = (frame.count(*j) as usize + 1).saturating_sub(start);
                self.pick(from, parts * start, parts * count);
                Ok(())
            }
            _ => Ok(()),
        }
    }

    /// Emits a term whose two operands have the elements from place `from` on and from `middle` on.
    fn with_two<F: Frame>(
        &mut self,
        frame: &F,
        term: &Term,
        at: Cursor,
        from: usize,
        middle: usize,
    ) -> Result<(), AllocError>
        requires clocks { F.clocks frame.now ≡ self.old.clocks.items }
        requires form { HasTwo term.now }
        requires from { from ≤ middle }
        requires middle { middle ≤ length self.old.found.items }
        requires room { (mirror.with_two (F.context frame.now) (place_of at) term.now
            (slice_range (numbers_of self.old.found.items) from middle)
            (above middle (emitted_of self.old))).state.next < 2 ^ 32 }
        ensures emitted { OnOk result (emitted_of self.new
            ≡ on_two from middle (mirror.with_two (F.context frame.now) (place_of at) term.now)
            (emitted_of self.old)) }
        ensures clocks { OnOk result (self.new.clocks ≡ self.old.clocks) }
    {
        let clock = frame.clock(at.term);
        match term {
            Term::Binary(op, _, _) => self.pairs(clock, Pair::Data(*op), from, middle),
            Term::Arrow(_, _) => self.pairs(clock, Pair::FirstThen, from, middle),
            Term::Fby(_, _) => {
                self.memory(clock, Unary::Previous, middle)?;
                self.pairs(clock, Pair::FirstThen, from, middle)
            }
            _ => Ok(()),
        }
    }

    /// Emits a term whose row of operands has the elements of the stack from place `from` on.
    fn with_all<F: Frame>(
        &mut self,
        frame: &F,
        term: &Term,
        at: Cursor,
        from: usize,
    ) -> Result<(), AllocError>
        requires clocks { F.clocks frame.now ≡ self.old.clocks.items }
        requires variables { F.variables frame.now ≤ self.old.next }
        requires form { HasRow term.now }
        requires from { from ≤ length self.old.found.items }
        requires room { (mirror.with_all (F.context frame.now) (place_of at) term.now
            (above from (emitted_of self.old))).state.next < 2 ^ 32 }
        ensures emitted { OnOk result (emitted_of self.new
            ≡ on_top from (mirror.with_all (F.context frame.now) (place_of at) term.now)
            (emitted_of self.old)) }
        ensures clocks { OnOk result (self.new.clocks ≡ self.old.clocks) }
    {
        let clock = frame.clock(at.term);
        match term {
            Term::AtMostOne(_) => self.at_most_one(clock, from),
            Term::Nor(_) => self.nor(clock, from),
            Term::Call(_, _) => self.call(frame, at.call, from),
            Term::IterateNode(iterator, _, _) => self.iterate(frame, at.call, *iterator, from),
            Term::IterateSymbol(iterator, op, n, _) => {
                self.symbol(clock, *op, frame.count(*n), *iterator, from)
            }
            _ => Ok(()),
        }
    }

    /// Emits a term at a place that has this value; returns the place after it.
    fn constant<F: Frame>(
        &mut self,
        frame: &F,
        value: Scalar,
        at: Cursor,
    ) -> Result<Cursor, AllocError>
        requires clocks { F.clocks frame.now ≡ self.old.clocks.items }
        requires room { self.old.next + 1 < 2 ^ 32 }
        requires place { at.term + 1 < 2 ^ 64 }
        ensures emitted { IfOk result (λ to.
            mirror.placed (place_of to) (emitted_of self.new)
            ≡ stacked (numbers_of self.old.found.items)
            (mirror.placed (mirror.next_term (place_of at))
            (mirror.constant ((F.context frame.now).clock at.term) (state_of self.old)
            (scalar_of value)))) }
        ensures clocks { OnOk result (self.new.clocks ≡ self.old.clocks) }
    {
        let clock = frame.clock(at.term);
        self.push_found(clock, Operation::Constant(value))?;
        Ok(next_term(at))
    }

    /// Emits a term at a place; returns the place after it.
    #[cycle(form_emission)]
    pub(crate) fn emit<F: Frame>(
        &mut self,
        frame: &F,
        term: &Term,
        at: Cursor,
    ) -> Result<Cursor, AllocError>
        requires clocks { F.clocks frame.now ≡ self.old.clocks.items }
        requires variables { F.variables frame.now ≤ self.old.next }
        requires room { HasRoom (mirror.emit_term (F.context frame.now) (place_of at)
            (state_of self.old) term.now) }
        ensures emitted { IfOk result (λ to.
            mirror.placed (place_of to) (emitted_of self.new)
            ≡ stacked (numbers_of self.old.found.items) (mirror.emit_term (F.context frame.now)
            (place_of at) (state_of self.old) term.now)) }
        ensures clocks { OnOk result (self.new.clocks ≡ self.old.clocks) }
    {
        let from = self.found.len();
        match term {
            Term::Literal(n) => self.constant(frame, literal(*n), at),
            Term::Truth(b) => self.constant(frame, Scalar::Boolean(*b), at),
            Term::Variable(x) => {
                self.put(frame.places(*x))?;
                Ok(next_term(at))
            }
            Term::Value(i) => self.constant(frame, frame.value(*i), at),
            Term::Group(e) => self.emit(frame, e, at),
            Term::Unary(_, e)
            | Term::Pre(e)
            | Term::Current(e)
            | Term::When(e, _, _)
            | Term::Replicate(e, _)
            | Term::Index(e, _)
            | Term::Slice(e, _, _) => {
                let to = self.emit(frame, e, next_term(at))?;
                self.with_one(frame, term, at, from)?;
                Ok(to)
            }
            Term::Binary(_, a, b) | Term::Arrow(a, b) | Term::Fby(a, b) | Term::Join(a, b) => {
                let after = self.emit(frame, a, next_term(at))?;
                let middle = self.found.len();
                let to = self.emit(frame, b, after)?;
                self.with_two(frame, term, at, from, middle)?;
                Ok(to)
            }
            Term::If(c, a, b) => {
                let one = self.emit(frame, c, next_term(at))?;
                let second = self.found.len();
                let two = self.emit(frame, a, one)?;
                let third = self.found.len();
                let to = self.emit(frame, b, two)?;
                self.choose(frame.clock(at.term), from, second, third)?;
                Ok(to)
            }
            Term::Array(terms)
            | Term::AtMostOne(terms)
            | Term::Nor(terms)
            | Term::Call(_, terms)
            | Term::IterateNode(_, _, terms)
            | Term::IterateSymbol(_, _, _, terms) => {
                let to = self.emit_all(frame, terms, row_place(at, term))?;
                self.with_all(frame, term, at, from)?;
                Ok(to)
            }
        }
    }

    /// Emits terms one after another; returns the place after them.
    #[cycle(form_emission)]
    fn emit_all<F: Frame>(
        &mut self,
        frame: &F,
        terms: &[Term],
        at: Cursor,
    ) -> Result<Cursor, AllocError>
        requires clocks { F.clocks frame.now ≡ self.old.clocks.items }
        requires variables { F.variables frame.now ≤ self.old.next }
        requires room { HasRoom (mirror.emit_list (F.context frame.now) (place_of at)
            (state_of self.old) terms.now) }
        ensures emitted { IfOk result (λ to.
            mirror.placed (place_of to) (emitted_of self.new)
            ≡ stacked (numbers_of self.old.found.items) (mirror.emit_list (F.context frame.now)
            (place_of at) (state_of self.old) terms.now)) }
        ensures clocks { OnOk result (self.new.clocks ≡ self.old.clocks) }
    {
        let mut to = at;
        for term in terms {
            to = self.emit(frame, term, to)?;
        }
        Ok(to)
    }

    /// Emits the elements of left variables as copies of those of the stack from place `from` on.
    fn copy_lefts<F: Frame>(
        &mut self,
        frame: &F,
        lefts: &[VariableId],
        from: usize,
    ) -> Result<(), AllocError>
        requires clocks { F.clocks frame.now ≡ self.old.clocks.items }
        requires variables { F.variables frame.now ≤ self.old.next }
        requires from { from ≤ length self.old.found.items }
        ensures state { OnOk result (state_of self.new
            ≡ with_copies (state_of self.old) (copied
            (flat_map (mirror.left_targets (F.context frame.now)) lefts.now)
            (drop from (numbers_of self.old.found.items)))) }
        ensures found { OnOk result (self.new.found ≡ self.old.found) }
        ensures next { OnOk result (self.new.next ≡ self.old.next) }
        ensures clocks { OnOk result (self.new.clocks ≡ self.old.clocks) }
    {
        let mut at = from;
        for x in lefts {
            at = self.copy(frame.places(*x), frame.declared(*x), at)?;
        }
        Ok(())
    }

    /// Adds an element to the assertions.
    #[tactic(auto, using(crate::proofs::emission::EmittedChains::keeps))]
    fn assert_one(&mut self, element: ElementId) -> Result<(), AllocError>
        requires element { element.0 < self.old.next }
        ensures state { OnOk result (state_of self.new
            ≡ with_asserted (state_of self.old) (element.0 ∷ [])) }
        ensures found { self.new.found ≡ self.old.found }
        ensures next { self.new.next ≡ self.old.next }
        ensures clocks { self.new.clocks ≡ self.old.clocks }
    {
        self.asserted.push(element)?;
        Ok(())
    }

    /// Adds the elements of the stack from place `from` on to the assertions.
    fn assert_from(&mut self, from: usize) -> Result<(), AllocError>
        requires from { from ≤ length self.old.found.items }
        ensures state { OnOk result (state_of self.new
            ≡ with_asserted (state_of self.old) (drop from (numbers_of self.old.found.items))) }
        ensures found { OnOk result (self.new.found ≡ self.old.found) }
        ensures next { OnOk result (self.new.next ≡ self.old.next) }
        ensures clocks { OnOk result (self.new.clocks ≡ self.old.clocks) }
    {
        for i in from..self.found.len() {
            let a = self.found[i];
            self.assert_one(a)?;
        }
        Ok(())
    }

    /// Emits a statement at a place; returns the place after it.
    pub(crate) fn statement<F: Frame>(
        &mut self,
        frame: &F,
        statement: &ResolvedStatement,
        at: Cursor,
    ) -> Result<Cursor, AllocError>
        requires clocks { F.clocks frame.now ≡ self.old.clocks.items }
        requires variables { F.variables frame.now ≤ self.old.next }
        requires elements { (mirror.emit_statement (F.context frame.now) (place_of at)
            (state_of self.old) statement.now).state.next < 2 ^ 32 }
        requires places { HasPlaces (mirror.emit_statement (F.context frame.now) (place_of at)
            (state_of self.old) statement.now).place }
        ensures state { IfOk result (λ to.
            placed_state (place_of to) (state_of self.new)
            ≡ mirror.emit_statement (F.context frame.now) (place_of at) (state_of self.old)
            statement.now) }
        ensures found { OnOk result (numbers_of self.new.found.items
            ≡ numbers_of self.old.found.items) }
        ensures clocks { OnOk result (self.new.clocks ≡ self.old.clocks) }
    {
        let from = self.found.len();
        match statement {
            ResolvedStatement::Equation(lefts, e) => {
                let to = self.emit(frame, e, at)?;
                self.copy_lefts(frame, lefts, from)?;
                self.cut(from);
                Ok(to)
            }
            ResolvedStatement::Assertion(e) => {
                let to = self.emit(frame, e, at)?;
                self.assert_from(from)?;
                self.cut(from);
                Ok(to)
            }
        }
    }
}
