// A limit on one side, with the order in which limits on that side are chosen. Assumes nothing.
ghost use Rattle.std.specs.Prelude.{◌≡◌, not};
ghost use Rattle.elimination.specs.Limiting.{limit_of};

use crate::limit::Limit;
use crate::side::Side;
use integers::Better;
use std::marker::PhantomData;

#[derive(Clone, Copy)]
pub struct Bounding<S> {
    pub limit: Limit,
    side: PhantomData<S>,
}

impl<S: Side> Bounding<S> {
    pub fn new(limit: Limit) -> Bounding<S>
        ensures { result.limit ≡ limit }
    {
        Bounding {
            limit,
            side: PhantomData,
        }
    }
}

// The tighter of two limits is the better.
// This is no `Ord` of the standard library: limits equal in this order may differ in their terms, and so by `==`.
impl<S: Side> Better for Bounding<S> {
    ghost not_worse = { λ x y. not (S.tighter (limit_of y.limit) (limit_of x.limit)) };

    ghost total = { λ x y. S.total x.limit y.limit };

    ghost chain = { λ x y z. S.chain x.limit y.limit z.limit };

    fn better(&self, other: &Bounding<S>) -> bool {
        S::tighter(&self.limit, &other.limit)
    }
}
