//! Resolving the names of expressions, by the rules of scopes: each name that is used is bound, no
//! keyword comes twice in one call, and no comprehension binds a predeclared name. What resolves
//! the expressions inside is a parameter, so that each form is proved by itself.

ghost use Rattle.std.specs.Prelude.{◌≡◌, ◌+◌, ◌≤◌, ◌&&◌, ◌∷◌, [], IfOk, MatchOption, Some, map};
ghost use Rattle.std.specs.Prelude.{max};
ghost use Rattle.std.specs.Option.{option_map};
ghost use Rattle.grammar.specs.Bare.{Rest, choice as choice_tree, dict as dict_tree, each};
ghost use Rattle.grammar.specs.Bare.{each_entry, invokes, listing, named as name_tree, operates};
ghost use Rattle.grammar.specs.Bare.{selects, subscript, tuple as tuple_tree, turned};
ghost use Rattle.grammar.specs.BareDepth.{entries_depth, keywords_depth, rest_depth, tree_depth};
ghost use Rattle.grammar.specs.BareDepth.{trees_depth};
ghost use Rattle.program_tree.specs.Names.{Scope as Around, distinct};
ghost use Rattle.program_tree.specs.ProgramView as view;
ghost use Rattle.program_tree.specs.ProgramView.{rounds_onto};
ghost use Rattle.program_tree.specs.Resolved as resolved;
ghost use Rattle.program_tree.specs.Resolved.{binding_of};
ghost use Rattle.syntax.specs.Resolves.{Enters, Gives, GivesBoxed, GivesTerm, ResolvesInside};
ghost use Rattle.syntax.specs.Resolves.{boxed_term, first_scoped, first_tree, others_scoped};
ghost use Rattle.file_syntax.specs.Scopes.{entries_scoped, keyword_names, keywords_scoped};
ghost use Rattle.file_syntax.specs.Scopes.{rest_scoped, scoped, trees_scoped};
ghost use Rattle.grammar.specs.TreeView.{clause_of, entries, entry_of, keyword_of, keywords};
ghost use Rattle.grammar.specs.TreeView.{operator_seen, rests, sign_seen, tree_of, trees};

use grammar::{Clause, Entry, Expr, Keyword, Name, Operator, Sign};
use program_tree::program::{
    attribute, binary, call, choice, dict_each, dict_of, entry, index, keyword, list_each, list_of,
    name, number, string, tuple, unary,
};
use program_tree::{Argument, Binding, OwnSlots, Pair, Round, Term};
use scopes::{Scope, are_distinct, clause_names, none_predeclared};
use std::alloc::{AllocError, AllocFailed, Global};

/// Why the names of a part of a file aren't resolved.
#[derive(Clone, Copy, PartialEq, Eq, Debug)]
pub(crate) enum Unresolved {
    /// It breaks a rule of scopes.
    Breaks,
    /// Memory was refused.
    NoMemory,
}

impl From<AllocError> for Unresolved {
    ghost use Rattle.std.specs.Prelude.{◌≡◌};
    ghost use Rattle.syntax.specs.declared.resolver.Unresolved.TheVariants.{NoMemory};

    ghost from_gives = { λ _ e. e ≡ NoMemory };

    fn from(_: AllocError) -> Self {
        Unresolved::NoMemory
    }
}

impl<T: Drop> From<AllocFailed<T>> for Unresolved {
    ghost use Rattle.std.specs.Prelude.{◌≡◌};
    ghost use Rattle.syntax.specs.declared.resolver.Unresolved.TheVariants.{NoMemory};

    ghost from_gives = { λ _ e. e ≡ NoMemory };

    fn from(_: AllocFailed<T>) -> Self {
        Unresolved::NoMemory
    }
}

/// What names that are bound here stand for.
pub(crate) fn bindings<'t>(
    alloc: Global,
    scope: &Scope<'t>,
    first: &Name<'t>,
    others: &[Name<'t>],
) -> Result<Vec<Binding>, AllocError>
    ensures { IfOk result (λ v. v.items ≡ map (binding_of scope.now) (first.now ∷ others.now)) }
{
    let mut found = Vec::with_capacity(alloc, others.len() + 1)?;
    found.push(scope.binding(first))?;
    for other in others {
        found.push(scope.binding(other))?;
    }
    Ok(found)
}

/// A clause and those behind it.
fn split<'l, 't>(clauses: &'l [Clause<'t>]) -> Option<(&'l Clause<'t>, &'l [Clause<'t>])>
    ensures { MatchOption result (clauses.now ≡ []) (λ p. clauses.now ≡ p.0.now ∷ p.1.now) }
{
    match clauses {
        [first, others @ ..] => Some((first, others)),
        [] => None,
    }
}

/// The expression of a clause.
fn operand<'l, 't>(clause: &'l Clause<'t>) -> &'l Expr<'t>
    ensures scoped { (s t : Around) (r : Rest)
        → rest_scoped s t (clause_of clause.now r)
        ≡ (scoped s (tree_of result.now) && rest_scoped t t r) }
    ensures others { (t : Around) (r : Rest) → others_scoped t (clause_of clause.now r)
        ≡ rest_scoped t t r }
    ensures first { (r : Rest) → first_tree (clause_of clause.now r) ≡ Some (tree_of result.now) }
    ensures depth { (r : Rest) → rest_depth (clause_of clause.now r)
        ≡ max (tree_depth (tree_of result.now)) (rest_depth r) }
{
    match clause {
        Clause::For(_, _, operand) => operand,
        Clause::If(condition) => condition,
    }
}

/// A clause of the comprehension whose scope this is, with its expression, which was resolved
/// before.
#[inline(never)]
fn round<'t>(
    alloc: Global,
    scope: &Scope<'t>,
    clause: &Clause<'t>,
    operand: Term,
) -> Result<Round, AllocError>
    ensures { IfOk result (λ k. (s : Around) (r : Rest)
        → option_map (resolved.term s) (first_tree (clause_of clause.now r))
        ≡ Some (view.term operand) → view.round k (resolved.rounds scope.now scope.now r)
        ≡ resolved.rounds s scope.now (clause_of clause.now r)) }
{
    match clause {
        Clause::For(first, others, _) => {
            let names = bindings(alloc, scope, first, others.as_slice())?;
            Ok(Round::For(names, operand))
        }
        Clause::If(_) => Ok(Round::If(operand)),
    }
}

/// The key and the value of an entry.
fn parts_of<'l, 't>(entry: &'l Entry<'t>) -> (&'l Expr<'t>, &'l Expr<'t>)
    ensures { entry_of entry.now ≡ (tree_of result.0.now, tree_of result.1.now) }
{
    (&entry.key, &entry.value)
}

/// The name and the value of an argument.
fn named_value<'l, 't>(keyword: &'l Keyword<'t>) -> (&'l Name<'t>, &'l Expr<'t>)
    ensures { keyword_of keyword.now ≡ (result.0.now, tree_of result.1.now) }
{
    (&keyword.name, &keyword.value)
}

/// Whether no name comes twice among the arguments of a call.
fn names_differ(alloc: Global, named: &[Keyword<'_>]) -> Result<bool, AllocError>
    ensures { IfOk result (λ b. b ≡ distinct (keyword_names (keywords named.now))) }
{
    if named.len() < 2 {
        return Ok(true);
    }
    let mut names = Vec::with_capacity(alloc, named.len())?;
    for keyword in named {
        names.push(keyword.name.share()?)?;
    }
    let told = are_distinct(alloc, names.as_slice())?;
    Ok(told)
}

/// What a name that is used stands for.
#[inline(never)]
fn resolve_name<'t>(scope: &Scope<'t>, text: &Name<'t>) -> Result<Term, Unresolved>
    ensures { GivesTerm (name_tree text.now) scope.now result scope.now }
{
    match scope.stands_for(text) {
        Some(binding) => Ok(name(binding)),
        None => Err(Unresolved::Breaks),
    }
}

/// Resolves the names of expressions, by what resolves those inside.
#[derive(Clone, Copy)]
struct Resolver<F> {
    alloc: Global,
    /// How many expressions are at most inside of one another in those inside.
    turns: usize,
    inside: F,
}

impl<F: for<'t> Fn(Global, &mut Scope<'t>, &Expr<'t>, usize) -> Result<Term, Unresolved>> Resolver<
    F,
> {
    fn one<'t>(&self, scope: &mut Scope<'t>, expr: &Expr<'t>) -> Result<Term, Unresolved>
        requires inside { ResolvesInside self.now.turns (F.pre self.now.inside)
            (F.post self.now.inside) }
        requires fits { tree_depth (tree_of expr.now) ≤ self.now.turns }
        ensures { GivesTerm (tree_of expr.now) scope.old result scope.new }
    {
        (self.inside)(self.alloc, scope, expr, self.turns)
    }

    /// The same behind a `Box`, so that those who resolve one inside of another take little of the
    /// stack.
    #[inline(never)]
    fn boxed<'t>(&self, scope: &mut Scope<'t>, expr: &Expr<'t>) -> Result<Box<Term>, Unresolved>
        requires inside { ResolvesInside self.now.turns (F.pre self.now.inside)
            (F.post self.now.inside) }
        requires fits { tree_depth (tree_of expr.now) ≤ self.now.turns }
        ensures { GivesBoxed (tree_of expr.now) scope.old result scope.new }
    {
        let term = self.one(scope, expr)?;
        Ok(Box::new(self.alloc, term)?)
    }

    #[inline(never)]
    fn all<'t>(&self, scope: &mut Scope<'t>, exprs: &[Expr<'t>]) -> Result<Vec<Term>, Unresolved>
        requires inside { ResolvesInside self.now.turns (F.pre self.now.inside)
            (F.post self.now.inside) }
        requires fit { trees_depth (trees exprs.now) ≤ self.now.turns }
        ensures { Gives (λ v. view.terms v.items) (λ s. trees_scoped s (trees exprs.now))
            (λ s. resolved.terms s (trees exprs.now)) scope.old result scope.new }
    {
        let mut found = Vec::with_capacity(self.alloc, exprs.len())?;
        for expr in exprs {
            let term = self.one(scope, expr)?;
            found.push(term)?;
        }
        Ok(found)
    }

    #[inline(never)]
    fn pairs<'t>(
        &self,
        scope: &mut Scope<'t>,
        written: &[Entry<'t>],
    ) -> Result<Vec<Pair>, Unresolved>
        requires inside { ResolvesInside self.now.turns (F.pre self.now.inside)
            (F.post self.now.inside) }
        requires fit { entries_depth (entries written.now) ≤ self.now.turns }
        ensures { Gives (λ v. view.pairs v.items) (λ s. entries_scoped s (entries written.now))
            (λ s. resolved.pairs s (entries written.now)) scope.old result scope.new }
    {
        let mut found = Vec::with_capacity(self.alloc, written.len())?;
        for pair in written {
            let read = parts_of(pair);
            let key = self.one(scope, read.0)?;
            let value = self.one(scope, read.1)?;
            let made = entry(key, value);
            found.push(made)?;
        }
        Ok(found)
    }

    #[inline(never)]
    fn arguments<'t>(
        &self,
        scope: &mut Scope<'t>,
        named: &[Keyword<'t>],
    ) -> Result<Vec<Argument>, Unresolved>
        requires inside { ResolvesInside self.now.turns (F.pre self.now.inside)
            (F.post self.now.inside) }
        requires fit { keywords_depth (keywords named.now) ≤ self.now.turns }
        ensures { Gives (λ v. view.keywords v.items) (λ s. keywords_scoped s (keywords named.now))
            (λ s. resolved.keywords s (keywords named.now)) scope.old result scope.new }
    {
        let mut found = Vec::with_capacity(self.alloc, named.len())?;
        for argument in named {
            let read = named_value(argument);
            let value = self.one(scope, read.1)?;
            let name = read.0.to_text(self.alloc)?;
            let made = keyword(name, value);
            found.push(made)?;
        }
        Ok(found)
    }

    #[inline(never)]
    fn tuple<'t>(&self, scope: &mut Scope<'t>, items: &[Expr<'t>]) -> Result<Term, Unresolved>
        requires inside { ResolvesInside self.now.turns (F.pre self.now.inside)
            (F.post self.now.inside) }
        requires fits { tree_depth (tuple_tree (trees items.now)) ≤ self.now.turns + 1 }
        ensures { GivesTerm (tuple_tree (trees items.now)) scope.old result scope.new }
    {
        Ok(tuple(self.all(scope, items)?))
    }

    #[inline(never)]
    fn list_of<'t>(&self, scope: &mut Scope<'t>, items: &[Expr<'t>]) -> Result<Term, Unresolved>
        requires inside { ResolvesInside self.now.turns (F.pre self.now.inside)
            (F.post self.now.inside) }
        requires fits { tree_depth (listing (trees items.now)) ≤ self.now.turns + 1 }
        ensures { GivesTerm (listing (trees items.now)) scope.old result scope.new }
    {
        Ok(list_of(self.all(scope, items)?))
    }

    #[inline(never)]
    fn dict_of<'t>(&self, scope: &mut Scope<'t>, written: &[Entry<'t>]) -> Result<Term, Unresolved>
        requires inside { ResolvesInside self.now.turns (F.pre self.now.inside)
            (F.post self.now.inside) }
        requires fits { tree_depth (dict_tree (entries written.now)) ≤ self.now.turns + 1 }
        ensures { GivesTerm (dict_tree (entries written.now)) scope.old result scope.new }
    {
        Ok(dict_of(self.pairs(scope, written)?))
    }

    #[inline(never)]
    fn binary<'t>(
        &self,
        scope: &mut Scope<'t>,
        operator: Operator,
        left: &Expr<'t>,
        right: &Expr<'t>,
    ) -> Result<Term, Unresolved>
        requires inside { ResolvesInside self.now.turns (F.pre self.now.inside)
            (F.post self.now.inside) }
        requires fits { tree_depth (operates (operator_seen operator) (tree_of left.now)
            (tree_of right.now)) ≤ self.now.turns + 1 }
        ensures { GivesTerm (operates (operator_seen operator) (tree_of left.now)
            (tree_of right.now)) scope.old result scope.new }
    {
        let left = self.boxed(scope, left)?;
        let right = self.boxed(scope, right)?;
        Ok(binary(operator, left, right))
    }

    #[inline(never)]
    fn choice<'t>(
        &self,
        scope: &mut Scope<'t>,
        then: &Expr<'t>,
        test: &Expr<'t>,
        other: &Expr<'t>,
    ) -> Result<Term, Unresolved>
        requires inside { ResolvesInside self.now.turns (F.pre self.now.inside)
            (F.post self.now.inside) }
        requires fits { tree_depth (choice_tree (tree_of then.now) (tree_of test.now)
            (tree_of other.now)) ≤ self.now.turns + 1 }
        ensures { GivesTerm (choice_tree (tree_of then.now) (tree_of test.now) (tree_of other.now))
            scope.old result scope.new }
    {
        let then = self.boxed(scope, then)?;
        let test = self.boxed(scope, test)?;
        let other = self.boxed(scope, other)?;
        Ok(choice(then, test, other))
    }

    #[inline(never)]
    fn unary<'t>(
        &self,
        scope: &mut Scope<'t>,
        sign: Sign,
        operand: &Expr<'t>,
    ) -> Result<Term, Unresolved>
        requires inside { ResolvesInside self.now.turns (F.pre self.now.inside)
            (F.post self.now.inside) }
        requires fits { tree_depth (turned (sign_seen sign) (tree_of operand.now))
            ≤ self.now.turns + 1 }
        ensures { GivesTerm (turned (sign_seen sign) (tree_of operand.now)) scope.old result
            scope.new }
    {
        let operand = self.boxed(scope, operand)?;
        Ok(unary(sign, operand))
    }

    #[inline(never)]
    fn attribute<'t>(
        &self,
        scope: &mut Scope<'t>,
        base: &Expr<'t>,
        field: &Name<'t>,
    ) -> Result<Term, Unresolved>
        requires inside { ResolvesInside self.now.turns (F.pre self.now.inside)
            (F.post self.now.inside) }
        requires fits { tree_depth (selects (tree_of base.now) field.now) ≤ self.now.turns + 1 }
        ensures { GivesTerm (selects (tree_of base.now) field.now) scope.old result scope.new }
    {
        let base = self.boxed(scope, base)?;
        Ok(attribute(base, field.to_text(self.alloc)?))
    }

    #[inline(never)]
    fn index<'t>(
        &self,
        scope: &mut Scope<'t>,
        base: &Expr<'t>,
        at: &Expr<'t>,
    ) -> Result<Term, Unresolved>
        requires inside { ResolvesInside self.now.turns (F.pre self.now.inside)
            (F.post self.now.inside) }
        requires fits { tree_depth (subscript (tree_of base.now) (tree_of at.now))
            ≤ self.now.turns + 1 }
        ensures { GivesTerm (subscript (tree_of base.now) (tree_of at.now)) scope.old result
            scope.new }
    {
        let base = self.boxed(scope, base)?;
        let at = self.boxed(scope, at)?;
        Ok(index(base, at))
    }

    #[inline(never)]
    fn call<'t>(
        &self,
        scope: &mut Scope<'t>,
        callee: &Expr<'t>,
        items: &[Expr<'t>],
        named: &[Keyword<'t>],
    ) -> Result<Term, Unresolved>
        requires inside { ResolvesInside self.now.turns (F.pre self.now.inside)
            (F.post self.now.inside) }
        requires fits { tree_depth (invokes (tree_of callee.now) (trees items.now)
            (keywords named.now)) ≤ self.now.turns + 1 }
        ensures { GivesTerm (invokes (tree_of callee.now) (trees items.now) (keywords named.now))
            scope.old result scope.new }
    {
        let callee = self.boxed(scope, callee)?;
        let items = self.all(scope, items)?;
        if !names_differ(self.alloc, named)? {
            return Err(Unresolved::Breaks);
        }
        let named = self.arguments(scope, named)?;
        Ok(call(callee, items, named))
    }

    /// The expression of the first clause, which stands outside of the scope of its comprehension.
    fn first_operand<'t>(
        &self,
        scope: &mut Scope<'t>,
        clauses: &[Clause<'t>],
    ) -> Result<Option<Box<Term>>, Unresolved>
        requires inside { ResolvesInside self.now.turns (F.pre self.now.inside)
            (F.post self.now.inside) }
        requires fit { rest_depth (rests clauses.now) ≤ self.now.turns }
        ensures { Gives (option_map boxed_term) (λ s. first_scoped s (rests clauses.now))
            (λ s. option_map (resolved.term s) (first_tree (rests clauses.now))) scope.old result
            scope.new }
    {
        match split(clauses) {
            Some((first, _)) => Ok(Some(self.boxed(scope, operand(first))?)),
            None => Ok(None),
        }
    }

    /// Adds clauses that all stand in the scope of their comprehension.
    #[inline(never)]
    fn add_rounds<'t>(
        &self,
        scope: &mut Scope<'t>,
        found: &mut Vec<Round>,
        clauses: &[Clause<'t>],
    ) -> Result<(), Unresolved>
        requires inside { ResolvesInside self.now.turns (F.pre self.now.inside)
            (F.post self.now.inside) }
        requires fit { rest_depth (rests clauses.now) ≤ self.now.turns }
        ensures { Gives (λ _. view.rounds found.new.items)
            (λ s. rest_scoped s s (rests clauses.now))
            (λ s. rounds_onto (map view.round found.old.items)
            (resolved.rounds s s (rests clauses.now))) scope.old result scope.new }
    {
        for clause in clauses {
            let value = self.one(scope, operand(clause))?;
            let made = round(self.alloc, scope, clause, value)?;
            found.push(made)?;
        }
        Ok(())
    }

    /// The clauses of the comprehension whose scope this is, of which the first has its expression
    /// already.
    #[inline(never)]
    fn rounds<'t>(
        &self,
        scope: &mut Scope<'t>,
        first: Option<Box<Term>>,
        clauses: &[Clause<'t>],
    ) -> Result<Vec<Round>, Unresolved>
        requires inside { ResolvesInside self.now.turns (F.pre self.now.inside)
            (F.post self.now.inside) }
        requires fit { rest_depth (rests clauses.now) ≤ self.now.turns }
        ensures { (s : Around) → option_map boxed_term first
            ≡ option_map (resolved.term s) (first_tree (rests clauses.now))
            → Gives (λ v. view.rounds v.items) (λ t. others_scoped t (rests clauses.now))
            (λ t. resolved.rounds s t (rests clauses.now)) scope.old result scope.new }
    {
        let mut found = Vec::with_capacity(self.alloc, clauses.len())?;
        if let Some(value) = first {
            if let Some((clause, others)) = split(clauses) {
                let made = round(self.alloc, scope, clause, Box::into_inner(value))?;
                found.push(made)?;
                self.add_rounds(scope, &mut found, others)?;
            }
        }
        Ok(found)
    }

    /// What stands inside of the scope of a comprehension over a list.
    fn in_list<'t>(
        &self,
        scope: &mut Scope<'t>,
        element: &Expr<'t>,
        first: Option<Box<Term>>,
        clauses: &[Clause<'t>],
    ) -> Result<(Box<Term>, Vec<Round>), Unresolved>
        requires inside { ResolvesInside self.now.turns (F.pre self.now.inside)
            (F.post self.now.inside) }
        requires fits { tree_depth (tree_of element.now) ≤ self.now.turns }
        requires fit { rest_depth (rests clauses.now) ≤ self.now.turns }
        ensures { (s : Around) → option_map boxed_term first
            ≡ option_map (resolved.term s) (first_tree (rests clauses.now))
            → Gives {B = resolved.Term × resolved.Rounds}
            (λ p. (boxed_term p.0, view.rounds p.1.items))
            (λ t. scoped t (tree_of element.now) && others_scoped t (rests clauses.now))
            (λ t. (resolved.term t (tree_of element.now), resolved.rounds s t (rests clauses.now)))
            scope.old result scope.new }
    {
        let element = self.boxed(scope, element)?;
        let rounds = self.rounds(scope, first, clauses)?;
        Ok((element, rounds))
    }

    /// The same over a dict.
    fn in_dict<'t>(
        &self,
        scope: &mut Scope<'t>,
        key: &Expr<'t>,
        value: &Expr<'t>,
        first: Option<Box<Term>>,
        clauses: &[Clause<'t>],
    ) -> Result<(Box<Term>, Box<Term>, Vec<Round>), Unresolved>
        requires inside { ResolvesInside self.now.turns (F.pre self.now.inside)
            (F.post self.now.inside) }
        requires key { tree_depth (tree_of key.now) ≤ self.now.turns }
        requires value { tree_depth (tree_of value.now) ≤ self.now.turns }
        requires fit { rest_depth (rests clauses.now) ≤ self.now.turns }
        ensures { (s : Around) → option_map boxed_term first
            ≡ option_map (resolved.term s) (first_tree (rests clauses.now))
            → Gives {B = resolved.Term × resolved.Term × resolved.Rounds}
            (λ p. (boxed_term p.0, boxed_term p.1, view.rounds p.2.items))
            (λ t. scoped t (tree_of key.now) &&
            (scoped t (tree_of value.now) && others_scoped t (rests clauses.now)))
            (λ t. (
              resolved.term t (tree_of key.now),
              resolved.term t (tree_of value.now),
              resolved.rounds s t (rests clauses.now),
            )) scope.old result scope.new }
    {
        let key = self.boxed(scope, key)?;
        let value = self.boxed(scope, value)?;
        let rounds = self.rounds(scope, first, clauses)?;
        Ok((key, value, rounds))
    }

    /// Goes into a comprehension, and gives its slots and the expression of its first clause.
    #[inline(never)]
    fn enter<'t>(
        &self,
        scope: &mut Scope<'t>,
        clauses: &[Clause<'t>],
    ) -> Result<(OwnSlots, Option<Box<Term>>), Unresolved>
        requires inside { ResolvesInside self.now.turns (F.pre self.now.inside)
            (F.post self.now.inside) }
        requires fit { rest_depth (rests clauses.now) ≤ self.now.turns }
        ensures { Enters (rests clauses.now) scope.old result scope.new }
    {
        let names = clause_names(self.alloc, clauses)?;
        if !none_predeclared(names.as_slice()) {
            return Err(Unresolved::Breaks);
        }
        let first = self.first_operand(scope, clauses)?;
        let own = scope.enter(self.alloc, names.as_slice())?;
        Ok((own, first))
    }

    #[inline(never)]
    fn list_each<'t>(
        &self,
        scope: &mut Scope<'t>,
        element: &Expr<'t>,
        clauses: &[Clause<'t>],
    ) -> Result<Term, Unresolved>
        requires inside { ResolvesInside self.now.turns (F.pre self.now.inside)
            (F.post self.now.inside) }
        requires fits { tree_depth (each (tree_of element.now) (rests clauses.now))
            ≤ self.now.turns + 1 }
        ensures { GivesTerm (each (tree_of element.now) (rests clauses.now)) scope.old result
            scope.new }
    {
        let (own, first) = self.enter(scope, clauses)?;
        let inside = self.in_list(scope, element, first, clauses);
        scope.leave();
        let (element, rounds) = inside?;
        Ok(list_each(own, element, rounds))
    }

    #[inline(never)]
    fn dict_each<'t>(
        &self,
        scope: &mut Scope<'t>,
        key: &Expr<'t>,
        value: &Expr<'t>,
        clauses: &[Clause<'t>],
    ) -> Result<Term, Unresolved>
        requires inside { ResolvesInside self.now.turns (F.pre self.now.inside)
            (F.post self.now.inside) }
        requires fits { tree_depth (each_entry (tree_of key.now) (tree_of value.now)
            (rests clauses.now)) ≤ self.now.turns + 1 }
        ensures { GivesTerm (each_entry (tree_of key.now) (tree_of value.now) (rests clauses.now))
            scope.old result scope.new }
    {
        let (own, first) = self.enter(scope, clauses)?;
        let inside = self.in_dict(scope, key, value, first, clauses);
        scope.leave();
        let (key, value, rounds) = inside?;
        Ok(dict_each(own, key, value, rounds))
    }

    fn expr<'t>(&self, scope: &mut Scope<'t>, expr: &Expr<'t>) -> Result<Term, Unresolved>
        requires inside { ResolvesInside self.now.turns (F.pre self.now.inside)
            (F.post self.now.inside) }
        requires fits { tree_depth (tree_of expr.now) ≤ self.now.turns + 1 }
        ensures { GivesTerm (tree_of expr.now) scope.old result scope.new }
    {
        match expr {
            Expr::Name(text) => resolve_name(scope, text),
            Expr::Number(value) => Ok(number(*value)),
            Expr::Str(text) => Ok(string(text.share()?)),
            Expr::Tuple(items) => self.tuple(scope, items.as_slice()),
            Expr::ListOf(items) => self.list_of(scope, items.as_slice()),
            Expr::DictOf(written) => self.dict_of(scope, written.as_slice()),
            Expr::Choice(then, test, other) => self.choice(scope, then, test, other),
            Expr::Binary(operator, left, right) => self.binary(scope, *operator, left, right),
            Expr::Unary(sign, operand) => self.unary(scope, *sign, operand),
            Expr::Attribute(base, field) => self.attribute(scope, base, field),
            Expr::Index(base, at) => self.index(scope, base, at),
            Expr::Call(callee, items, named) => {
                self.call(scope, callee, items.as_slice(), named.as_slice())
            }
            Expr::ListEach(element, clauses) => {
                self.list_each(scope, element, clauses.as_slice())
            }
            Expr::DictEach(key, value, clauses) => {
                self.dict_each(scope, key, value, clauses.as_slice())
            }
        }
    }
}

/// An expression whose names are resolved. As many of its calls are inside of one another as
/// expressions are, `turns` at most.
///
/// # Errors
///
/// [`Unresolved::Breaks`] where it breaks a rule of scopes. [`Unresolved::NoMemory`] where memory
/// was refused.
pub(crate) fn resolve<'t>(
    alloc: Global,
    scope: &mut Scope<'t>,
    expr: &Expr<'t>,
    turns: usize,
) -> Result<Term, Unresolved>
    requires { tree_depth (tree_of expr.now) ≤ turns }
    ensures { GivesTerm (tree_of expr.now) scope.old result scope.new }
{
    Resolver {
        alloc,
        turns: turns - 1,
        inside: resolve,
    }
    .expr(scope, expr)
}
