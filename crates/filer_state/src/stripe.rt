//! The parcel of a stripe.

ghost use Rattle.std.specs.Prelude.{◌≡◌, IfOk};

use std::alloc::{AllocError, Global};
use std::marker::Model;
use stripes::Stripe;

/// A stripe of a volume, in memory of its own.
pub struct StripeParcel {
    stripe: Box<Stripe>,
}

// By hand, so that crates above have no proof of the drop of each of its parts.
impl Drop for StripeParcel {
    fn drop(self) {
        let StripeParcel { stripe: _ } = self;
    }
}

impl Model for StripeParcel {
    ghost use Rattle.nfs_model.specs.volume.Stripes.{StripeValue};
    ghost use Rattle.nfs_model.specs.volume.Codes.{coded_stripe};

    ghost Value = { StripeValue };

    ghost coded = { coded_stripe };

    ghost view = { λ p. p.stripe.value };
}

impl StripeParcel {
    ghost use Rattle.std.specs.Borrow.{Lends, sem};
    ghost use Rattle.stripes.specs.contracts.stripe.Stripe.{the_row as stripe_row};
    ghost use Rattle.filer_state.specs.contracts.stripe.StripeParcel.{the_row};

    /// The parcel of a stripe.
    pub fn new(alloc: Global, stripe: Stripe) -> Result<StripeParcel, AllocError>
        ensures { IfOk result (λ parcel. parcel ≡ stripe) }
    {
        Ok(StripeParcel {
            stripe: Box::new(alloc, stripe)?,
        })
    }

    /// The stripe.
    pub fn get(&self) -> &Stripe
        ensures { result.now ≡ self.now }
    {
        self.stripe.as_ref()
    }

    /// The stripe, to be changed.
    pub fn get_mut(&mut self) -> &mut Stripe
        ensures* writes_back { sem 𝓛 (Lends the_row stripe_row self.entry result (λ s. s)) }
        ensures value { result.now ≡ self.old }
    {
        self.stripe.as_mut()
    }
}
