// What is held under a number.
ghost use Rattle.std.specs.Prelude.{◌≡◌, ℕ};

/// What has a number of its own: the `id` of its entry (`io/blkif.h`: "private guest value, echoed in resp").
pub trait Numbered {
    /// Its number: a function of its value alone.
    ghost number_of: { Self → ℕ };

    /// Its number.
    fn number(&self) -> u32
        ensures { result ≡ number_of self.now };
}
