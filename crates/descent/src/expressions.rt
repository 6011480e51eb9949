//! Expressions, read from a line by descent: one loop over the levels of operators, and a function
//! for each form of an atom. What reads the expressions inside of others is a parameter, so that
//! each is proved by itself.
//!
//! A part is kept behind a `Box`, and functions through which expressions stand inside of others
//! are not inlined: so a level takes hundreds of bytes of the stack and not thousands. That is
//! measured, and said by no clause.
//!
//! A reader is given room: how deep the expression may be. It goes down by one for the parts of a
//! form. What begins with a sign or a bracket is refused before it is read where it would be too
//! deep; of an operator, a field, an index or a call the parts are read first, so that a tree of
//! one level more is made and let go.

ghost use Rattle.std.specs.Prelude.{◌≤◌, ◌<◌, Some};
ghost use Rattle.grammar.specs.Ahead.{Negates, Reads, behind_if, bracket_at};
ghost use Rattle.grammar.specs.Front.{behind_close, behind_comma};
ghost use Rattle.grammar.specs.Reading.{then_read};
ghost use Rattle.lexer.specs.declared.layout.Bracket.TheVariants.{Square, Curly};
ghost use Rattle.grammar.specs.Descent as spec;
ghost use Rattle.grammar.specs.Descended.{Nests, part_seen, pair_seen, several_seen, pairs_seen};
ghost use Rattle.grammar.specs.Descended.{arguments_seen, conditions_seen};

use grammar::ahead::{Ahead, Head, Stop, Suffix};
use grammar::parts::{Arguments, Conditions, Pairs, Part, Row, Several};
use grammar::{Name, Sign, parts};
use lexer::{Bracket, unescape};
use operator_levels::in_a_row;
use plain::Text;
use std::alloc::Global;

// The levels of the operators, as those of the grammar are counted.
const LOOSEST: usize = 2;

const NEGATION: usize = 4;

/// That of `-` before a part.
const TIGHTEST: usize = 8;

/// Passes `not` by, where an expression of this level may begin with it.
fn negates(ahead: &mut Ahead<'_, '_>, level: usize) -> bool
    ensures { Negates level result ahead.old ahead.new }
{
    if level > NEGATION {
        return false;
    }
    if ahead.not_word() {
        return true;
    }
    false
}

/// Reads expressions, by what reads those inside.
#[derive(Clone, Copy)]
pub struct Reader<F> {
    alloc: Global,
    /// How many expressions may still be inside of one another.
    turns: usize,
    /// How many turns a loop may make.
    most: usize,
    expr: F,
}

impl<F: for<'t> Fn(Global, &mut Ahead<'_, 't>, usize, Row, usize) -> Result<Part<'t>, Stop>> Reader<
    F,
> {
    fn inside<'t>(&self, ahead: &mut Ahead<'_, 't>, row: Row, room: usize) -> Result<Part<'t>, Stop>
        requires { Nests self.now.turns (F.pre self.now.expr) (F.post self.now.expr) }
        ensures { Reads part_seen (spec.read self.now.turns row room ahead.old) result ahead.new }
    {
        (self.expr)(self.alloc, ahead, self.turns, row, room)
    }

    /// The items up to a closing bracket, behind those that were found.
    #[tactic(auto, unfolding(grammar::specs::Descent::items, grammar::specs::Descent::gather))]
    fn items<'t>(
        &self,
        ahead: &mut Ahead<'_, 't>,
        bracket: Bracket,
        room: usize,
        mut found: Several<'t>,
    ) -> Result<Several<'t>, Stop>
        requires { Nests self.now.turns (F.pre self.now.expr) (F.post self.now.expr) }
        ensures { Reads several_seen (spec.items (spec.read self.now.turns) self.now.most room
            bracket (several_seen found.entry) ahead.old) result ahead.new }
    {
        for _turn in 0..self.most {
            if ahead.close(bracket) {
                return Ok(found);
            }
            let item = self.inside(ahead, Row::Whole, room)?;
            found = parts::with_item(found, item)?;
            if ahead.close(bracket) {
                return Ok(found);
            }
            if !ahead.comma() {
                return Err(Stop::NoForm);
            }
        }
        Err(Stop::NoForm)
    }

    /// An entry of a dict.
    #[tactic(auto, unfolding(grammar::specs::Descent::pair))]
    #[inline(never)]
    fn pair<'t>(&self, ahead: &mut Ahead<'_, 't>, room: usize) -> Result<(Part<'t>, Part<'t>), Stop>
        requires { Nests self.now.turns (F.pre self.now.expr) (F.post self.now.expr) }
        ensures { Reads pair_seen (spec.pair (spec.read self.now.turns) self.now.most room
            ahead.old) result ahead.new }
    {
        let key = self.inside(ahead, Row::Whole, room)?;
        if !ahead.colon() {
            return Err(Stop::NoForm);
        }
        let value = self.inside(ahead, Row::Whole, room)?;
        Ok((key, value))
    }

    /// The entries up to the closing bracket, behind those that were found.
    #[tactic(auto, unfolding(grammar::specs::Descent::pairs, grammar::specs::Descent::gather))]
    fn pairs<'t>(
        &self,
        ahead: &mut Ahead<'_, 't>,
        room: usize,
        mut found: Pairs<'t>,
    ) -> Result<Pairs<'t>, Stop>
        requires { Nests self.now.turns (F.pre self.now.expr) (F.post self.now.expr) }
        ensures { Reads pairs_seen (spec.pairs (spec.read self.now.turns) self.now.most room
            (pairs_seen found.entry) ahead.old) result ahead.new }
    {
        for _turn in 0..self.most {
            if ahead.close(Bracket::Curly) {
                return Ok(found);
            }
            let pair = self.pair(ahead, room)?;
            found = parts::with_pair(found, pair)?;
            if ahead.close(Bracket::Curly) {
                return Ok(found);
            }
            if !ahead.comma() {
                return Err(Stop::NoForm);
            }
        }
        Err(Stop::NoForm)
    }

    /// One more argument.
    #[tactic(auto, unfolding(grammar::specs::Descent::argument))]
    fn argument<'t>(
        &self,
        ahead: &mut Ahead<'_, 't>,
        room: usize,
        found: Arguments<'t>,
    ) -> Result<Arguments<'t>, Stop>
        requires { Nests self.now.turns (F.pre self.now.expr) (F.post self.now.expr) }
        ensures { Reads arguments_seen (then_read
            (spec.argument (spec.read self.now.turns) self.now.most room ahead.old)
            (λ a u. Some (spec.with_argument (arguments_seen found.entry) a, u))) result ahead.new }
    {
        let name = ahead.named();
        let value = self.inside(ahead, Row::Whole, room)?;
        match name {
            Some(name) => Ok(parts::with_keyword(found, Name::new(name), value)?),
            None => Ok(parts::with_positional(found, value)?),
        }
    }

    /// The arguments of a call, up to its closing bracket.
    #[tactic(auto, unfolding(grammar::specs::Descent::arguments, grammar::specs::Descent::gather))]
    #[inline(never)]
    fn arguments<'t>(&self, ahead: &mut Ahead<'_, 't>, room: usize) -> Result<Arguments<'t>, Stop>
        requires { Nests self.now.turns (F.pre self.now.expr) (F.post self.now.expr) }
        ensures { Reads arguments_seen (spec.arguments (spec.read self.now.turns) self.now.most room
            ahead.old) result ahead.new }
    {
        let mut found = parts::no_arguments(self.alloc);
        for _turn in 0..self.most {
            if ahead.close(Bracket::Round) {
                return Ok(found);
            }
            found = self.argument(ahead, room, found)?;
            if ahead.close(Bracket::Round) {
                return Ok(found);
            }
            if !ahead.comma() {
                return Err(Stop::NoForm);
            }
        }
        Err(Stop::NoForm)
    }

    /// The clauses of a comprehension.
    #[tactic(auto, unfolding(grammar::specs::Descent::clauses))]
    #[inline(never)]
    fn clauses<'t>(&self, ahead: &mut Ahead<'_, 't>, room: usize) -> Result<Conditions<'t>, Stop>
        requires { Nests self.now.turns (F.pre self.now.expr) (F.post self.now.expr) }
        ensures { Reads conditions_seen (spec.clauses (spec.read self.now.turns) self.now.most room
            self.now.most spec.no_conditions ahead.old) result ahead.new }
    {
        let mut found = parts::no_conditions(self.alloc);
        for _turn in 0..self.most {
            match ahead.head(self.alloc)? {
                Head::For(first, others) => {
                    let operand = self.inside(ahead, Row::Operand, room)?;
                    found = parts::with_for(found, first, others, operand)?;
                }
                Head::If => {
                    let condition = self.inside(ahead, Row::Operand, room)?;
                    found = parts::with_if(found, condition)?;
                }
                Head::Other => return Ok(found),
            }
        }
        Err(Stop::NoForm)
    }

    /// Behind `(`: a tuple, or an expression in brackets.
    #[tactic(auto, unfolding(grammar::specs::Descent::round))]
    #[inline(never)]
    fn round<'t>(&self, ahead: &mut Ahead<'_, 't>, room: usize) -> Result<Part<'t>, Stop>
        requires { Nests self.now.turns (F.pre self.now.expr) (F.post self.now.expr) }
        ensures { Reads part_seen (spec.round (spec.read self.now.turns) self.now.most room
            ahead.old) result ahead.new }
    {
        if ahead.close(Bracket::Round) {
            let none = parts::no_items(self.alloc);
            return parts::tuple(self.alloc, none, room);
        }
        let first = self.inside(ahead, Row::Whole, room)?;
        if ahead.close(Bracket::Round) {
            return Ok(parts::bracketed(first));
        }
        if !ahead.comma() {
            return Err(Stop::NoForm);
        }
        let found = parts::with_item(parts::no_items(self.alloc), first)?;
        let found = self.items(ahead, Bracket::Round, room.saturating_sub(1), found)?;
        parts::tuple(self.alloc, found, room)
    }

    /// Behind the first item of a list.
    fn items_behind<'t>(
        &self,
        ahead: &mut Ahead<'_, 't>,
        room: usize,
        found: Several<'t>,
    ) -> Result<Several<'t>, Stop>
        requires { Nests self.now.turns (F.pre self.now.expr) (F.post self.now.expr) }
        ensures { Reads several_seen (spec.after_one
            (spec.items (spec.read self.now.turns) self.now.most room Square)
            (several_seen found.entry) (behind_close Square ahead.old) (behind_comma ahead.old))
            result ahead.new }
    {
        if ahead.close(Bracket::Square) {
            return Ok(found);
        }
        if !ahead.comma() {
            return Err(Stop::NoForm);
        }
        self.items(ahead, Bracket::Square, room, found)
    }

    /// Behind `[`: a list, or a comprehension.
    #[tactic(auto, unfolding(grammar::specs::Descent::square))]
    #[inline(never)]
    fn square<'t>(&self, ahead: &mut Ahead<'_, 't>, room: usize) -> Result<Part<'t>, Stop>
        requires { Nests self.now.turns (F.pre self.now.expr) (F.post self.now.expr) }
        ensures { Reads part_seen (spec.square (spec.read self.now.turns) self.now.most room
            ahead.old) result ahead.new }
    {
        if ahead.close(Bracket::Square) {
            let none = parts::no_items(self.alloc);
            return parts::list(self.alloc, none, room);
        }
        let below = room.saturating_sub(1);
        let first = self.inside(ahead, Row::Whole, below)?;
        if ahead.is_for() {
            let clauses = self.clauses(ahead, below)?;
            if !ahead.close(Bracket::Square) {
                return Err(Stop::NoForm);
            }
            return parts::list_each(self.alloc, first, clauses, room);
        }
        let found = parts::with_item(parts::no_items(self.alloc), first)?;
        let found = self.items_behind(ahead, below, found)?;
        parts::list(self.alloc, found, room)
    }

    /// Behind the first entry of a dict.
    #[inline(never)]
    fn pairs_behind<'t>(
        &self,
        ahead: &mut Ahead<'_, 't>,
        room: usize,
        found: Pairs<'t>,
    ) -> Result<Pairs<'t>, Stop>
        requires { Nests self.now.turns (F.pre self.now.expr) (F.post self.now.expr) }
        ensures { Reads pairs_seen (spec.after_one
            (spec.pairs (spec.read self.now.turns) self.now.most room) (pairs_seen found.entry)
            (behind_close Curly ahead.old) (behind_comma ahead.old)) result ahead.new }
    {
        if ahead.close(Bracket::Curly) {
            return Ok(found);
        }
        if !ahead.comma() {
            return Err(Stop::NoForm);
        }
        self.pairs(ahead, room, found)
    }

    /// Behind `{`: a dict, or a comprehension.
    #[tactic(auto, unfolding(grammar::specs::Descent::curly))]
    #[inline(never)]
    fn curly<'t>(&self, ahead: &mut Ahead<'_, 't>, room: usize) -> Result<Part<'t>, Stop>
        requires { Nests self.now.turns (F.pre self.now.expr) (F.post self.now.expr) }
        ensures { Reads part_seen (spec.curly (spec.read self.now.turns) self.now.most room
            ahead.old) result ahead.new }
    {
        if ahead.close(Bracket::Curly) {
            let none = parts::no_pairs(self.alloc);
            return parts::dict(self.alloc, none, room);
        }
        let below = room.saturating_sub(1);
        let first = self.pair(ahead, below)?;
        if ahead.is_for() {
            let clauses = self.clauses(ahead, below)?;
            if !ahead.close(Bracket::Curly) {
                return Err(Stop::NoForm);
            }
            return parts::dict_each(self.alloc, first, clauses, room);
        }
        let found = parts::with_pair(parts::no_pairs(self.alloc), first)?;
        let found = self.pairs_behind(ahead, below, found)?;
        parts::dict(self.alloc, found, room)
    }

    /// What begins with a bracket.
    fn display<'t>(&self, ahead: &mut Ahead<'_, 't>, room: usize) -> Result<Part<'t>, Stop>
        requires { Nests self.now.turns (F.pre self.now.expr) (F.post self.now.expr) }
        ensures { Reads part_seen (spec.display_step (spec.read self.now.turns) self.now.most room
            (bracket_at ahead.old)) result ahead.new }
    {
        match ahead.bracket() {
            Some(Bracket::Round) => self.round(ahead, room),
            Some(Bracket::Square) => self.square(ahead, room),
            Some(Bracket::Curly) => self.curly(ahead, room),
            None => Err(Stop::NoForm),
        }
    }

    /// A name, a literal, or what stands in brackets.
    #[tactic(auto, unfolding(grammar::specs::Descent::atom))]
    #[inline(never)]
    fn atom<'t>(&self, ahead: &mut Ahead<'_, 't>, room: usize) -> Result<Part<'t>, Stop>
        requires { Nests self.now.turns (F.pre self.now.expr) (F.post self.now.expr) }
        ensures { Reads part_seen (spec.atom (spec.read self.now.turns) self.now.most room
            ahead.old) result ahead.new }
    {
        if let Some(name) = ahead.name() {
            return parts::name(self.alloc, name, room);
        }
        if let Some(value) = ahead.number() {
            return parts::number(self.alloc, value, room);
        }
        if let Some(body) = ahead.string() {
            let text = Text::from_string(unescape(self.alloc, body.as_bytes())?)?;
            return parts::string(self.alloc, text, room);
        }
        self.display(ahead, room)
    }

    /// An expression with one field, index or call behind it.
    #[tactic(auto, unfolding(grammar::specs::Descent::suffixed))]
    #[inline(never)]
    fn suffixed<'t>(
        &self,
        ahead: &mut Ahead<'_, 't>,
        of: Part<'t>,
        suffix: Suffix,
        room: usize,
    ) -> Result<Part<'t>, Stop>
        requires { Nests self.now.turns (F.pre self.now.expr) (F.post self.now.expr) }
        ensures { Reads part_seen (spec.suffixed (spec.read self.now.turns) self.now.most room
            (part_seen of.entry) suffix ahead.old) result ahead.new }
    {
        let below = room.saturating_sub(1);
        match suffix {
            Suffix::Attribute => match ahead.name() {
                Some(name) => parts::selected(self.alloc, of, name, room),
                None => Err(Stop::NoForm),
            },
            Suffix::Index => {
                let at = self.inside(ahead, Row::Whole, below)?;
                if !ahead.close(Bracket::Square) {
                    return Err(Stop::NoForm);
                }
                parts::subscripted(self.alloc, of, at, room)
            }
            Suffix::Call => {
                let arguments = self.arguments(ahead, below)?;
                if !arguments.in_order {
                    return Err(Stop::NoForm);
                }
                parts::called(self.alloc, of, arguments, room)
            }
        }
    }

    /// An atom, with its fields, indexes and calls.
    #[tactic(auto, unfolding(grammar::specs::Descent::e9, grammar::specs::Descent::suffixes))]
    #[inline(never)]
    fn e9<'t>(&self, ahead: &mut Ahead<'_, 't>, room: usize) -> Result<Part<'t>, Stop>
        requires { Nests self.now.turns (F.pre self.now.expr) (F.post self.now.expr) }
        ensures { Reads part_seen (spec.e9 (spec.read self.now.turns) self.now.most room ahead.old)
            result ahead.new }
    {
        let mut whole = self.atom(ahead, room)?;
        for _turn in 0..self.most {
            match ahead.suffix() {
                Some(suffix) => whole = self.suffixed(ahead, whole, suffix, room)?,
                None => return Ok(whole),
            }
        }
        Ok(whole)
    }

    /// An expression with `-` before it, or without.
    #[tactic(auto, unfolding(grammar::specs::Descent::e8))]
    fn operand<'t>(&self, ahead: &mut Ahead<'_, 't>, room: usize) -> Result<Part<'t>, Stop>
        requires { Nests self.now.turns (F.pre self.now.expr) (F.post self.now.expr) }
        ensures { Reads part_seen (spec.e8 (spec.read self.now.turns) self.now.most room ahead.old)
            result ahead.new }
    {
        if ahead.minus() {
            let operand = self.inside(ahead, Row::Opposed, room.saturating_sub(1))?;
            return parts::signed(self.alloc, Sign::Minus, operand, room);
        }
        self.e9(ahead, room)
    }

    /// Behind `not`.
    #[inline(never)]
    fn negated<'t>(&self, ahead: &mut Ahead<'_, 't>, room: usize) -> Result<Part<'t>, Stop>
        requires { Nests self.now.turns (F.pre self.now.expr) (F.post self.now.expr) }
        ensures { Reads part_seen (spec.negated (spec.read self.now.turns) self.now.most room
            ahead.old) result ahead.new }
    {
        let operand = self.inside(ahead, Row::Negated, room.saturating_sub(1))?;
        parts::signed(self.alloc, Sign::Not, operand, room)
    }

    /// Goes on with operators of a level behind a part.
    #[cycle(levels)]
    #[tactic(auto, unfolding(grammar::specs::Descent::chain))]
    fn joined<'t>(
        &self,
        ahead: &mut Ahead<'_, 't>,
        mut left: Part<'t>,
        level: usize,
        room: usize,
    ) -> Result<Part<'t>, Stop>
        requires inner { Nests self.now.turns (F.pre self.now.expr) (F.post self.now.expr) }
        requires loose { 2 ≤ level }
        requires tight { level < 8 }
        ensures { Reads part_seen (spec.joined (spec.read self.now.turns) self.now.most level room
            (part_seen left.entry) ahead.old) result ahead.new }
    {
        for _turn in 0..in_a_row(level, self.most) {
            let Some(operator) = ahead.operator(level) else {
                return Ok(left);
            };
            let right = self.level(ahead, level + 1, room.saturating_sub(1))?;
            left = parts::operated(self.alloc, operator, left, right, room)?;
        }
        Ok(left)
    }

    /// Goes on with the operators of a level and of the tighter ones below `top`, the tightest
    /// first.
    #[cycle(levels)]
    #[inline(never)]
    fn onward<'t>(
        &self,
        ahead: &mut Ahead<'_, 't>,
        mut left: Part<'t>,
        level: usize,
        top: usize,
        room: usize,
    ) -> Result<Part<'t>, Stop>
        requires inner { Nests self.now.turns (F.pre self.now.expr) (F.post self.now.expr) }
        requires loose { 2 ≤ level }
        requires upward { level ≤ top }
        requires tight { top ≤ 8 }
        ensures { Reads part_seen (spec.onward (spec.read self.now.turns) self.now.most level room
            top (part_seen left.entry) ahead.old) result ahead.new }
    {
        if ahead.ends_here() {
            return Ok(left);
        }
        for next in (level..top).rev() {
            left = self.joined(ahead, left, next, room)?;
        }
        Ok(left)
    }

    /// An expression whose operators are of this level, or tighter.
    #[cycle(levels)]
    fn level<'t>(
        &self,
        ahead: &mut Ahead<'_, 't>,
        level: usize,
        room: usize,
    ) -> Result<Part<'t>, Stop>
        requires inner { Nests self.now.turns (F.pre self.now.expr) (F.post self.now.expr) }
        requires loose { 2 ≤ level }
        requires tight { level ≤ 8 }
        ensures { Reads part_seen (spec.level (spec.read self.now.turns) self.now.most level room
            ahead.old) result ahead.new }
    {
        if negates(ahead, level) {
            let first = self.negated(ahead, room)?;
            return self.onward(ahead, first, level, NEGATION, room);
        }
        let first = self.operand(ahead, room)?;
        self.onward(ahead, first, level, TIGHTEST, room)
    }

    /// A condition behind an expression, with the other one.
    #[inline(never)]
    fn chosen<'t>(
        &self,
        ahead: &mut Ahead<'_, 't>,
        then: Part<'t>,
        room: usize,
    ) -> Result<Part<'t>, Stop>
        requires { Nests self.now.turns (F.pre self.now.expr) (F.post self.now.expr) }
        ensures { Reads part_seen (spec.if_step (spec.read self.now.turns) self.now.most room
            (part_seen then.entry) ahead.old (behind_if ahead.old)) result ahead.new }
    {
        if !ahead.if_word() {
            return Ok(then);
        }
        let below = room.saturating_sub(1);
        let test = self.level(ahead, LOOSEST, below)?;
        if !ahead.else_word() {
            return Err(Stop::NoForm);
        }
        let other = self.inside(ahead, Row::Whole, below)?;
        parts::chosen(self.alloc, then, test, other, room)
    }

    /// Any expression.
    #[tactic(auto, unfolding(grammar::specs::Descent::e1))]
    fn whole<'t>(&self, ahead: &mut Ahead<'_, 't>, room: usize) -> Result<Part<'t>, Stop>
        requires { Nests self.now.turns (F.pre self.now.expr) (F.post self.now.expr) }
        ensures { Reads part_seen (spec.e1 (spec.read self.now.turns) self.now.most room ahead.old)
            result ahead.new }
    {
        let then = self.level(ahead, LOOSEST, room)?;
        self.chosen(ahead, then, room)
    }

    fn row<'t>(&self, ahead: &mut Ahead<'_, 't>, row: Row, room: usize) -> Result<Part<'t>, Stop>
        requires { Nests self.now.turns (F.pre self.now.expr) (F.post self.now.expr) }
        ensures { Reads part_seen (spec.row (spec.read self.now.turns) self.now.most row room
            ahead.old) result ahead.new }
    {
        match row {
            Row::Whole => self.whole(ahead, room),
            Row::Operand => self.level(ahead, LOOSEST, room),
            Row::Negated => self.level(ahead, NEGATION, room),
            Row::Opposed => self.level(ahead, TIGHTEST, room),
        }
    }
}

/// The expression that comes next, of at most `turns` expressions inside of one another and no
/// deeper than `room`. Ask for as many turns as there are tokens, so that nothing is refused for
/// want of them.
///
/// # Errors
///
/// [`Stop::NoForm`] where there is none, or a deeper one; [`Stop::NoMemory`] where memory was
/// refused.
pub fn expression<'t>(
    alloc: Global,
    ahead: &mut Ahead<'_, 't>,
    turns: usize,
    row: Row,
    room: usize,
) -> Result<Part<'t>, Stop>
    ensures { Reads part_seen (spec.read turns row room ahead.old) result ahead.new }
{
    if turns == 0 {
        return Err(Stop::NoForm);
    }
    if room == 0 {
        return Err(Stop::NoForm);
    }
    Reader {
        alloc,
        turns: turns - 1,
        most: turns,
        expr: expression,
    }
    .row(ahead, row, room)
}
