//! Which TACs a job may have.
ghost use Rattle.std.specs.Prelude.{◌≡◌, ℕ, Bool, false, List};
ghost use Rattle.kdcs_types.specs.declared.key.Target.{Target};
ghost use Rattle.kdcs_types.specs.declared.key.Target.TheVariants.{Tac, Lterm};

use kd_base::Name;

/// A test of targets, by which a job is chosen. It allows no LTERM.
pub trait Allows {
    ghost allows: { Self → Target → Bool };

    fn allows(&self, tac: Name) -> bool
        ensures { result ≡ allows self.now (Tac tac) };

    ghost no_lterm: { (test : Self) (lterm : List ℕ) → allows test (Lterm lterm) ≡ false };
}
