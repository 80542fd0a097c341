//! A model is a rule at a scope. Any rule may stand at any scope.
ghost use Rattle.models.specs.declared.scope.Scope.{Scope as ScopeOf};
ghost use Rattle.models.specs.declared.scope.Scope.TheVariants.{Location, Whole, Weak};

use crate::rc20::Rc20Rule;
use crate::rule::Rule;
use crate::rules::{EmptyRule, ReadsFromRule};
use crate::scope::Scope;
use std::marker::PhantomData;

/// The scope stands both as a constant and for contracts; the check proves the two equal.
pub trait Model {
    type Synchronises: Rule;

    const SCOPE: Scope;

    ghost SCOPE: { ScopeOf };
}

/// The C20 model without sequentially consistent accesses.
pub type Rc20 = AtLocation<Rc20Rule>;

/// Release-acquire.
pub type Ra = AtLocation<ReadsFromRule>;

/// Strong release-acquire.
pub type Sra = AtWhole<ReadsFromRule>;

/// Weak release-acquire.
pub type Wra = AtWeak<ReadsFromRule>;

/// No synchronisation: what relaxed accesses alone keep.
pub type Relaxed = AtLocation<EmptyRule>;

/// The model with this rule at location scope.
pub struct AtLocation<R>(PhantomData<R>);

/// The model with this rule at whole scope.
pub struct AtWhole<R>(PhantomData<R>);

/// The model with this rule at weak scope.
pub struct AtWeak<R>(PhantomData<R>);

impl<R: Rule> Model for AtLocation<R> {
    type Synchronises = R;

    const SCOPE: Scope = Scope::Location;

    ghost SCOPE = { Location };
}

impl<R: Rule> Model for AtWhole<R> {
    type Synchronises = R;

    const SCOPE: Scope = Scope::Whole;

    ghost SCOPE = { Whole };
}

impl<R: Rule> Model for AtWeak<R> {
    type Synchronises = R;

    const SCOPE: Scope = Scope::Weak;

    ghost SCOPE = { Weak };
}
