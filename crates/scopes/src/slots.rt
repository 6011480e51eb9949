//! How many slots comprehensions take, in expressions and in statements: what the frame of a
//! function needs of them.

ghost use Rattle.std.specs.Prelude.{◌≡◌};
ghost use Rattle.program_tree.specs.ProgramView as view;
ghost use Rattle.program_tree.specs.Resolved as resolved;

use program_tree::{Argument, Branch, Pair, Round, Statement, Step, Term};

/// The slots that comprehensions in an expression take: the number behind that of the last one.
#[cycle(term_frames)]
fn term_slots(term: &Term) -> usize
    ensures { result ≡ resolved.term_slots (view.term term.now) }
{
    match term {
        Term::Name(_) | Term::Number(_) | Term::Str(_) => 0,
        Term::Tuple(items) | Term::ListOf(items) => terms_slots(items.as_slice()),
        Term::DictOf(pairs) => pairs_slots(pairs.as_slice()),
        Term::Choice(then, test, other) => {
            term_slots(then).max(term_slots(test).max(term_slots(other)))
        }
        Term::Binary(_, left, right) => term_slots(left).max(term_slots(right)),
        Term::Unary(_, operand) => term_slots(operand),
        Term::Attribute(base, _) => term_slots(base),
        Term::Index(base, at) => term_slots(base).max(term_slots(at)),
        Term::Call(callee, items, named) => {
            let given = terms_slots(items.as_slice()).max(arguments_slots(named.as_slice()));
            term_slots(callee).max(given)
        }
        Term::ListEach(own, element, rounds) => {
            let inside = term_slots(element).max(rounds_slots(rounds.as_slice()));
            own.end.max(inside)
        }
        Term::DictEach(own, key, value, rounds) => {
            let inside = term_slots(key)
                .max(term_slots(value))
                .max(rounds_slots(rounds.as_slice()));
            own.end.max(inside)
        }
    }
}

#[cycle(term_frames)]
fn terms_slots(terms: &[Term]) -> usize
    ensures { result ≡ resolved.terms_slots (view.terms terms.now) }
{
    let mut most = 0;
    for term in terms {
        most = most.max(term_slots(term));
    }
    most
}

/// The same of the entries of a dict.
#[cycle(term_frames)]
fn pairs_slots(pairs: &[Pair]) -> usize
    ensures { result ≡ resolved.pairs_slots (view.pairs pairs.now) }
{
    let mut most = 0;
    for pair in pairs {
        most = most.max(term_slots(&pair.key).max(term_slots(&pair.value)));
    }
    most
}

/// The same of arguments with names.
#[cycle(term_frames)]
fn arguments_slots(named: &[Argument]) -> usize
    ensures { result ≡ resolved.keywords_slots (view.keywords named.now) }
{
    let mut most = 0;
    for argument in named {
        most = most.max(term_slots(&argument.value));
    }
    most
}

/// The same of the clauses of a comprehension.
#[cycle(term_frames)]
fn rounds_slots(rounds: &[Round]) -> usize
    ensures { result ≡ resolved.rounds_slots (view.rounds rounds.now) }
{
    let mut most = 0;
    for round in rounds {
        let inside = match round {
            Round::For(_, operand) => term_slots(operand),
            Round::If(test) => term_slots(test),
        };
        most = most.max(inside);
    }
    most
}

/// The same of three expressions.
fn three_slots(base: &Term, at: &Term, value: &Term) -> usize
    ensures { result ≡ resolved.statement_slots
        (resolved.assign_item (view.term base.now) (view.term at.now) (view.term value.now)) }
{
    term_slots(base).max(term_slots(at).max(term_slots(value)))
}

/// The same of a statement. A function has slots of its own; its defaults are evaluated outside.
#[cycle(step_frames)]
fn statement_slots(statement: &Statement) -> usize
    ensures { result ≡ resolved.statement_slots (view.statement statement.now) }
{
    match statement {
        Statement::Load(_, _) | Statement::Pass | Statement::Break | Statement::Continue => 0,
        Statement::Define(function) => terms_slots(function.defaults.as_slice()),
        Statement::If(branches, other) => {
            branches_slots(branches.as_slice()).max(steps_slots(other.as_slice()))
        }
        Statement::For(_, operand, inner) => term_slots(operand).max(steps_slots(inner.as_slice())),
        Statement::Assign(_, value) | Statement::Add(_, value) | Statement::Evaluate(value) => {
            term_slots(value)
        }
        Statement::AssignAt(base, at, value) | Statement::AddAt(base, at, value) => {
            three_slots(base, at, value)
        }
        Statement::Return(None) => 0,
        Statement::Return(Some(value)) => term_slots(value),
    }
}

#[cycle(step_frames)]
fn branches_slots(branches: &[Branch]) -> usize
    ensures { result ≡ resolved.branches_slots (view.branches branches.now) }
{
    let mut most = 0;
    for branch in branches {
        let inside = term_slots(&branch.test).max(steps_slots(branch.steps.as_slice()));
        most = most.max(inside);
    }
    most
}

/// The slots that comprehensions in statements take: the number behind that of the last one. It
/// calls itself once for each block and each expression around another.
#[cycle(step_frames)]
pub fn steps_slots(steps: &[Step]) -> usize
    ensures { result ≡ resolved.steps_slots (view.steps steps.now) }
{
    let mut most = 0;
    for step in steps {
        most = most.max(statement_slots(&step.statement));
    }
    most
}
