//! The form of a logical line, read by descent: its head or its simple statement, with the
//! expressions in it.

ghost use Rattle.std.specs.Prelude.{◌≡◌, ◌++◌, ◌∷◌, ◌-◌, [], IfOk, OnOk, Some, map};
ghost use Rattle.std.specs.Option.{option_map};
ghost use Rattle.grammar.specs.Ahead.{given, Makes, Reads, is_done, string_at, tokens_seen};
ghost use Rattle.grammar.specs.BareLines as bare;
ghost use Rattle.statements.specs.BuiltView.{body_of};
ghost use Rattle.grammar.specs.Descent.{if_all, read};
ghost use Rattle.grammar.specs.Descended.{part_seen, several_seen};
ghost use Rattle.grammar.specs.FormDescent as spec;
ghost use Rattle.grammar.specs.FormReading.{names_to};
ghost use Rattle.statements.specs.FormView.{shaped_of};
ghost use Rattle.grammar.specs.LineView.{form_in, form_of, param_of, item_of};
ghost use Rattle.grammar.specs.TreeView.{tree_in};
ghost use Rattle.grammar.specs.declared.parts.Row.TheVariants.{Whole};

use crate::blocks::Body;
use descent::expression;
use grammar::ahead::{Ahead, Opening, Stop};
use grammar::parts::{Part, Row, Several};
use grammar::{Expr, Form, Item, MAX_DEPTH, Name, Param, Target, parts};
use lexer::{Bracket, Lines, NoMemory, Token, unescape};
use plain::Text;
use std::alloc::{AllocError, Global};

/// Reads the parts of a line.
#[derive(Clone, Copy)]
struct FormReader {
    alloc: Global,
    /// How many expressions may be inside of one another, and how many turns a loop may make.
    turns: usize,
}

/// What is assigned to the target, or to it and the names behind it.
fn assigned<'t>(
    alloc: Global,
    target: Part<'t>,
    names: Vec<Name<'t>>,
    value: Box<Expr<'t>>,
) -> Result<Box<Form<'t>>, Stop>
    ensures { Makes form_in (spec.assigned (part_seen target.entry) names.entry.items
        (tree_in value.entry)) result }
{
    if !target.is_target {
        return Err(Stop::NoForm);
    }
    match Box::into_inner(target.expr).into_target() {
        Some(Target::Name(name)) => Ok(Box::new(alloc, Form::Assign(name, names, value))?),
        Some(Target::At(base, at)) => {
            if names.is_empty() {
                Ok(Box::new(alloc, Form::AssignAt(base, at, value))?)
            } else {
                Err(Stop::NoForm)
            }
        }
        None => Err(Stop::NoForm),
    }
}

/// What is added to the target.
fn increased<'t>(
    alloc: Global,
    target: Part<'t>,
    value: Box<Expr<'t>>,
) -> Result<Box<Form<'t>>, Stop>
    ensures { Makes form_in (spec.increased (part_seen target.entry) (tree_in value.entry)) result }
{
    if !target.is_target {
        return Err(Stop::NoForm);
    }
    match Box::into_inner(target.expr).into_target() {
        Some(Target::Name(name)) => Ok(Box::new(alloc, Form::Add(name, value))?),
        Some(Target::At(base, at)) => Ok(Box::new(alloc, Form::AddAt(base, at, value))?),
        None => Err(Stop::NoForm),
    }
}

/// What is made of a line, where nothing is left of it.
fn alone<F: Drop>(alloc: Global, ahead: &Ahead<'_, '_>, made: F) -> Result<Box<F>, Stop>
    ensures { (seen : F → bare.Form) → Makes (λ b. seen b.value)
        (given (is_done ahead.now) (seen made)) result }
{
    if ahead.is_done() {
        Ok(Box::new(alloc, made)?)
    } else {
        Err(Stop::NoForm)
    }
}

/// Adds a parameter. A list of one or two takes no more memory than for these.
fn add_param<'t>(found: &mut Vec<Param<'t>>, param: Param<'t>) -> Result<(), AllocError>
    ensures { OnOk result (found.new.items ≡ found.old.items ++ param.entry ∷ []) }
{
    if found.len() < 2 {
        found.reserve_exact(1)?;
    }
    found.push(param)?;
    Ok(())
}

impl FormReader {
    fn expr<'t>(&self, ahead: &mut Ahead<'_, 't>, room: usize) -> Result<Part<'t>, Stop>
        ensures { Reads part_seen (read self.now.turns Whole room ahead.old) result ahead.new }
    {
        expression(self.alloc, ahead, self.turns, Row::Whole, room)
    }

    /// An expression up to the end of the line.
    fn last<'t>(&self, ahead: &mut Ahead<'_, 't>) -> Result<Box<Expr<'t>>, Stop>
        ensures { Makes tree_in (if_all (read self.now.turns Whole 200 ahead.old)) result }
    {
        let part = self.expr(ahead, MAX_DEPTH)?;
        if ahead.is_done() {
            Ok(part.expr)
        } else {
            Err(Stop::NoForm)
        }
    }

    /// Expressions with commas between them, up to the end of the line, behind those that were
    /// found.
    #[tactic(auto, unfolding(grammar::specs::FormDescent::more_values))]
    fn more_values<'t>(
        &self,
        ahead: &mut Ahead<'_, 't>,
        mut found: Several<'t>,
    ) -> Result<Several<'t>, Stop>
        ensures { Makes several_seen (spec.more_values self.now.turns (self.now.turns - 1)
            (several_seen found.entry) ahead.old) result }
    {
        for _turn in 0..self.turns.saturating_sub(1) {
            let item = self.expr(ahead, MAX_DEPTH - 1)?;
            found = parts::with_item(found, item)?;
            if !ahead.comma() {
                if ahead.is_done() {
                    return Ok(found);
                }
                return Err(Stop::NoForm);
            }
        }
        Err(Stop::NoForm)
    }

    /// Several expressions, of which the first was found, as a tuple.
    fn values_behind<'t>(
        &self,
        ahead: &mut Ahead<'_, 't>,
        first: Part<'t>,
    ) -> Result<Box<Expr<'t>>, Stop>
        ensures { Makes tree_in (spec.value_step self.now.turns (self.now.turns - 1)
            (part_seen first.entry) [] (Some ahead.old)) result }
    {
        let found = parts::with_item(parts::no_items(self.alloc), first)?;
        let found = self.more_values(ahead, found)?;
        let part = parts::tuple(self.alloc, found, MAX_DEPTH)?;
        Ok(part.expr)
    }

    /// What is assigned or returned: an expression up to the end of the line, or several, which are
    /// a tuple.
    #[tactic(auto, unfolding(grammar::specs::FormDescent::value))]
    fn value<'t>(&self, ahead: &mut Ahead<'_, 't>) -> Result<Box<Expr<'t>>, Stop>
        ensures { Makes tree_in (spec.value self.now.turns ahead.old) result }
    {
        let first = self.expr(ahead, MAX_DEPTH)?;
        if ahead.comma() {
            return self.values_behind(ahead, first);
        }
        if ahead.is_done() {
            Ok(first.expr)
        } else {
            Err(Stop::NoForm)
        }
    }

    /// Names behind the first target, up to `=`, and what is assigned.
    fn names_behind<'t>(
        &self,
        ahead: &mut Ahead<'_, 't>,
        first: Part<'t>,
    ) -> Result<Box<Form<'t>>, Stop>
        ensures { Makes form_in (spec.names_step self.now.turns (part_seen first.entry)
            (names_to ahead.old)) result }
    {
        match ahead.names_to(self.alloc)? {
            Some(names) => {
                let value = self.value(ahead)?;
                assigned(self.alloc, first, names, value)
            }
            None => Err(Stop::NoForm),
        }
    }

    /// A line that begins with an expression.
    #[tactic(auto, unfolding(grammar::specs::FormDescent::expression_line))]
    fn expression_line<'t>(&self, ahead: &mut Ahead<'_, 't>) -> Result<Box<Form<'t>>, Stop>
        ensures { Makes form_in (spec.expression_line self.now.turns ahead.old) result }
    {
        let first = self.expr(ahead, MAX_DEPTH)?;
        if ahead.is_done() {
            return Ok(Box::new(self.alloc, Form::Evaluate(first.expr))?);
        }
        if ahead.assign() {
            let value = self.value(ahead)?;
            return assigned(self.alloc, first, Vec::new(self.alloc), value);
        }
        if ahead.add_assign() {
            let value = self.last(ahead)?;
            return increased(self.alloc, first, value);
        }
        self.names_behind(ahead, first)
    }

    /// Behind `return`.
    fn returned<'t>(&self, ahead: &mut Ahead<'_, 't>) -> Result<Box<Form<'t>>, Stop>
        ensures { Makes form_in (spec.return_step self.now.turns ahead.old (is_done ahead.old))
            result }
    {
        if ahead.is_done() {
            return Ok(Box::new(self.alloc, Form::Return(None))?);
        }
        let value = self.value(ahead)?;
        Ok(Box::new(self.alloc, Form::Return(Some(value)))?)
    }

    /// Behind the word that a statement without a head begins with.
    fn simple_behind<'t>(
        &self,
        opening: Opening,
        ahead: &mut Ahead<'_, 't>,
    ) -> Result<Box<Form<'t>>, Stop>
        ensures { Makes form_in (spec.simple_step self.now.turns [] (Some (opening, ahead.old)))
            result }
    {
        match opening {
            Opening::Pass => alone(self.alloc, ahead, Form::Pass),
            Opening::Break => alone(self.alloc, ahead, Form::Break),
            Opening::Continue => alone(self.alloc, ahead, Form::Continue),
            Opening::Return => self.returned(ahead),
            _ => Err(Stop::NoForm),
        }
    }

    /// A statement without a head.
    #[tactic(auto, unfolding(grammar::specs::FormDescent::simple))]
    fn simple<'t>(&self, ahead: &mut Ahead<'_, 't>) -> Result<Box<Form<'t>>, Stop>
        ensures { Makes form_in (spec.simple self.now.turns ahead.old) result }
    {
        match ahead.opening() {
            Some(opening) => self.simple_behind(opening, ahead),
            None => self.expression_line(ahead),
        }
    }

    /// The `:` of a head, and what is behind it.
    #[tactic(auto, unfolding(grammar::specs::FormDescent::body))]
    fn body<'t>(&self, ahead: &mut Ahead<'_, 't>) -> Result<Body<'t>, Stop>
        ensures { Makes body_of (spec.body self.now.turns ahead.old) result }
    {
        if !ahead.colon() {
            return Err(Stop::NoForm);
        }
        if ahead.is_done() {
            return Ok(Body::Block);
        }
        Ok(Body::Statement(self.simple(ahead)?))
    }

    /// A head with its body.
    fn bodied<'t>(
        &self,
        ahead: &mut Ahead<'_, 't>,
        form: Box<Form<'t>>,
    ) -> Result<(Box<Form<'t>>, Body<'t>), Stop>
        ensures { Makes shaped_of (spec.bodied self.now.turns (form_in form.entry)
            (spec.body self.now.turns ahead.old)) result }
    {
        let body = self.body(ahead)?;
        Ok((form, body))
    }

    /// A parameter, with its default if it has one.
    #[tactic(auto, unfolding(grammar::specs::FormDescent::param))]
    fn param<'t>(&self, ahead: &mut Ahead<'_, 't>) -> Result<Param<'t>, Stop>
        ensures { Reads param_of (spec.param self.now.turns ahead.old) result ahead.new }
    {
        let Some(name) = ahead.name() else {
            return Err(Stop::NoForm);
        };
        if !ahead.assign() {
            return Ok(Param::Required(Name::new(name)));
        }
        let default = self.expr(ahead, MAX_DEPTH)?;
        Ok(Param::Optional(Name::new(name), default.expr))
    }

    /// The parameters of a function, up to the closing bracket.
    #[tactic(auto, unfolding(grammar::specs::FormDescent::params, grammar::specs::Descent::gather))]
    fn params<'t>(&self, ahead: &mut Ahead<'_, 't>) -> Result<Vec<Param<'t>>, Stop>
        ensures { Reads (λ ps. map param_of ps.items) (spec.params self.now.turns ahead.old) result
            ahead.new }
    {
        let mut found = Vec::new(self.alloc);
        for _turn in 0..self.turns {
            if ahead.close(Bracket::Round) {
                return Ok(found);
            }
            let param = self.param(ahead)?;
            add_param(&mut found, param)?;
            if ahead.close(Bracket::Round) {
                return Ok(found);
            }
            if !ahead.comma() {
                return Err(Stop::NoForm);
            }
        }
        Err(Stop::NoForm)
    }

    /// A string.
    fn string(&self, ahead: &mut Ahead<'_, '_>) -> Result<Text, Stop>
        ensures { Reads (λ s. s) (string_at ahead.old) result ahead.new }
    {
        let Some(body) = ahead.string() else {
            return Err(Stop::NoForm);
        };
        Ok(Text::from_string(unescape(self.alloc, body.as_bytes())?)?)
    }

    /// What a `load` asks for.
    #[tactic(auto, unfolding(grammar::specs::FormDescent::item))]
    fn item<'t>(&self, ahead: &mut Ahead<'_, 't>) -> Result<Item<'t>, Stop>
        ensures { Reads item_of (spec.item self.now.turns ahead.old) result ahead.new }
    {
        let name = ahead.named();
        let asked = self.string(ahead)?;
        let binds = match name {
            Some(name) => Name::new(name),
            None => Name::from_text(asked.share()?),
        };
        Ok(Item { binds, asked })
    }

    /// All that a `load` asks for, up to the closing bracket.
    #[tactic(auto, unfolding(grammar::specs::FormDescent::items, grammar::specs::Descent::gather))]
    fn items<'t>(&self, ahead: &mut Ahead<'_, 't>) -> Result<Vec<Item<'t>>, Stop>
        ensures { Reads (λ is. map item_of is.items) (spec.items self.now.turns ahead.old) result
            ahead.new }
    {
        let mut found = Vec::new(self.alloc);
        for _turn in 0..self.turns {
            if ahead.close(Bracket::Round) {
                return Ok(found);
            }
            let item = self.item(ahead)?;
            found.push(item)?;
            if ahead.close(Bracket::Round) {
                return Ok(found);
            }
            if !ahead.comma() {
                return Err(Stop::NoForm);
            }
        }
        Err(Stop::NoForm)
    }

    /// Behind `load`.
    #[tactic(auto, unfolding(grammar::specs::FormDescent::load_line))]
    fn load_line<'t>(&self, ahead: &mut Ahead<'_, 't>) -> Result<(Box<Form<'t>>, Body<'t>), Stop>
        ensures { Makes shaped_of (spec.load_line self.now.turns ahead.old) result }
    {
        if !ahead.open_round() {
            return Err(Stop::NoForm);
        }
        let module = self.string(ahead)?;
        if !ahead.comma() {
            return Err(Stop::NoForm);
        }
        let items = self.items(ahead)?;
        if items.is_empty() || !ahead.is_done() {
            return Err(Stop::NoForm);
        }
        let form = Box::new(self.alloc, Form::Load(module, items))?;
        Ok((form, Body::Nothing))
    }

    /// Behind `def`.
    #[tactic(auto, unfolding(grammar::specs::FormDescent::def_line))]
    fn def_line<'t>(&self, ahead: &mut Ahead<'_, 't>) -> Result<(Box<Form<'t>>, Body<'t>), Stop>
        ensures { Makes shaped_of (spec.def_line self.now.turns ahead.old) result }
    {
        let Some(name) = ahead.name() else {
            return Err(Stop::NoForm);
        };
        if !ahead.open_round() {
            return Err(Stop::NoForm);
        }
        let params = self.params(ahead)?;
        let form = Box::new(self.alloc, Form::Def(Name::new(name), params))?;
        self.bodied(ahead, form)
    }

    /// Behind `for`.
    #[tactic(auto, unfolding(grammar::specs::FormDescent::for_line, grammar::specs::FormDescent::headed))]
    fn for_line<'t>(&self, ahead: &mut Ahead<'_, 't>) -> Result<(Box<Form<'t>>, Body<'t>), Stop>
        ensures { Makes shaped_of (spec.for_line self.now.turns ahead.old) result }
    {
        let Some(name) = ahead.name() else {
            return Err(Stop::NoForm);
        };
        let Some(others) = ahead.names_in(self.alloc)? else {
            return Err(Stop::NoForm);
        };
        let operand = self.expr(ahead, MAX_DEPTH)?.expr;
        let form = Box::new(self.alloc, Form::For(Name::new(name), others, operand))?;
        self.bodied(ahead, form)
    }

    /// Behind `if`.
    #[tactic(auto, unfolding(grammar::specs::FormDescent::headed))]
    fn if_line<'t>(&self, ahead: &mut Ahead<'_, 't>) -> Result<(Box<Form<'t>>, Body<'t>), Stop>
        ensures { Makes shaped_of (spec.headed self.now.turns bare.if_head ahead.old) result }
    {
        let test = self.expr(ahead, MAX_DEPTH)?;
        let form = Box::new(self.alloc, Form::If(test.expr))?;
        self.bodied(ahead, form)
    }

    /// Behind `elif`.
    #[tactic(auto, unfolding(grammar::specs::FormDescent::headed))]
    fn elif_line<'t>(&self, ahead: &mut Ahead<'_, 't>) -> Result<(Box<Form<'t>>, Body<'t>), Stop>
        ensures { Makes shaped_of (spec.headed self.now.turns bare.elif_head ahead.old) result }
    {
        let test = self.expr(ahead, MAX_DEPTH)?;
        let form = Box::new(self.alloc, Form::Elif(test.expr))?;
        self.bodied(ahead, form)
    }

    /// Behind the word that a line begins with.
    fn form_behind<'t>(
        &self,
        opening: Opening,
        ahead: &mut Ahead<'_, 't>,
    ) -> Result<(Box<Form<'t>>, Body<'t>), Stop>
        ensures { Makes shaped_of (spec.form_step self.now.turns [] (Some (opening, ahead.old)))
            result }
    {
        match opening {
            Opening::Load => self.load_line(ahead),
            Opening::Def => self.def_line(ahead),
            Opening::If => self.if_line(ahead),
            Opening::Elif => self.elif_line(ahead),
            Opening::Else => self.bodied(ahead, Box::new(self.alloc, Form::Else)?),
            Opening::For => self.for_line(ahead),
            _ => {
                let form = self.simple_behind(opening, ahead)?;
                Ok((form, Body::Nothing))
            }
        }
    }

    /// The form of a line.
    #[tactic(auto, unfolding(grammar::specs::FormDescent::form))]
    fn form<'t>(&self, ahead: &mut Ahead<'_, 't>) -> Result<(Box<Form<'t>>, Body<'t>), Stop>
        ensures { Makes shaped_of (spec.form self.now.turns ahead.old) result }
    {
        match ahead.opening() {
            Some(opening) => self.form_behind(opening, ahead),
            None => {
                let form = self.expression_line(ahead)?;
                Ok((form, Body::Nothing))
            }
        }
    }
}

/// The form that these tokens are, with what belongs to it; None where they are none, or one with
/// an expression that is deeper than [`MAX_DEPTH`].
///
/// # Errors
///
/// [`NoMemory`] where memory was refused.
#[tactic(auto, unfolding(grammar::specs::FormDescent::reads_form))]
pub(crate) fn read_form<'t>(
    alloc: Global,
    lines: &Lines<'t>,
    tokens: &[Token],
) -> Result<Option<(Box<Form<'t>>, Body<'t>)>, NoMemory>
    ensures { IfOk result (λ r. option_map shaped_of r
        ≡ spec.reads_form (tokens_seen lines.now.text tokens.now)) }
{
    let mut ahead = Ahead::new(lines, tokens);
    let turns = ahead.len() + 1;
    match (FormReader { alloc, turns }).form(&mut ahead) {
        Ok(form) => Ok(Some(form)),
        Err(Stop::NoForm) => Ok(None),
        Err(Stop::NoMemory) => Err(NoMemory),
    }
}
