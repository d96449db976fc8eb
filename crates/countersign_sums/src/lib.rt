// Inner: exact whole numbers with a sign, and complex numbers whose two parts are such numbers. No sum or product
// wraps: a caller shows one bound for each, by the weights of what it adds or multiplies.
#![tactic(auto)]

ghost use Rattle.std.specs.Prelude.{◌≡◌, ◌+◌, ◌*◌, ◌^◌, ◌<◌, leb};
ghost use Rattle.countersign_sums.specs.Wholes.{weight, plus_of, times_of, opposite_of, apart, at_most};
ghost use Rattle.countersign_sums.specs.Gaussians.{heft, sum_of, difference_of, product_of, by_whole, conjugate_of, both_within};

// What is over, less what is under.
#[derive(Clone, Copy)]
pub struct Whole {
    pub over: u64,
    pub under: u64,
}

impl Whole {
    pub fn plus(self, o: Whole) -> Whole
        requires { weight self + weight o < 2 ^ 64 }
        ensures { result ≡ plus_of self o }
    {
        Whole {
            over: self.over + o.over,
            under: self.under + o.under,
        }
    }

    pub fn times(self, o: Whole) -> Whole
        requires { weight self * weight o < 2 ^ 64 }
        ensures { result ≡ times_of self o }
    {
        Whole {
            over: self.over * o.over + self.under * o.under,
            under: self.over * o.under + self.under * o.over,
        }
    }

    pub fn opposite(self) -> Whole
        ensures { result ≡ opposite_of self }
    {
        Whole {
            over: self.under,
            under: self.over,
        }
    }

    // Whether it is within t of 0.
    pub fn within(self, t: u64) -> bool
        ensures { result ≡ leb (apart self) t }
    {
        self.over.abs_diff(self.under) <= t
    }

    // Whether it is o or less.
    pub fn at_most(self, o: Whole) -> bool
        requires { weight self + weight o < 2 ^ 64 }
        ensures { result ≡ at_most self o }
    {
        self.over + o.under <= o.over + self.under
    }
}

// A complex number whose parts are whole.
#[derive(Clone, Copy)]
pub struct Gaussian {
    pub re: Whole,
    pub im: Whole,
}

impl Gaussian {
    #[tactic(auto, unfolding(crate::specs::Gaussians::heft, crate::specs::Gaussians::sum_of))]
    pub fn plus(self, o: Gaussian) -> Gaussian
        requires { heft self + heft o < 2 ^ 64 }
        ensures { result ≡ sum_of self o }
    {
        Gaussian {
            re: self.re.plus(o.re),
            im: self.im.plus(o.im),
        }
    }

    #[tactic(auto, unfolding(crate::specs::Gaussians::heft, crate::specs::Gaussians::difference_of))]
    pub fn minus(self, o: Gaussian) -> Gaussian
        requires { heft self + heft o < 2 ^ 64 }
        ensures { result ≡ difference_of self o }
    {
        Gaussian {
            re: self.re.plus(o.re.opposite()),
            im: self.im.plus(o.im.opposite()),
        }
    }

    #[tactic(auto, unfolding(crate::specs::Gaussians::heft, crate::specs::Gaussians::product_of))]
    pub fn times(self, o: Gaussian) -> Gaussian
        requires { heft self * heft o < 2 ^ 64 }
        ensures { result ≡ product_of self o }
    {
        let a = self.re;
        let b = self.im;
        let c = o.re;
        let d = o.im;
        Gaussian {
            re: a.times(c).plus(b.times(d).opposite()),
            im: a.times(d).plus(b.times(c)),
        }
    }

    // By a whole number: each part.
    #[tactic(auto, unfolding(crate::specs::Gaussians::heft, crate::specs::Gaussians::by_whole))]
    pub fn by(self, w: Whole) -> Gaussian
        requires { heft self * weight w < 2 ^ 64 }
        ensures { result ≡ by_whole self w }
    {
        Gaussian {
            re: self.re.times(w),
            im: self.im.times(w),
        }
    }

    #[tactic(auto, unfolding(crate::specs::Gaussians::conjugate_of))]
    pub fn conj(self) -> Gaussian
        ensures { result ≡ conjugate_of self }
    {
        Gaussian {
            re: self.re,
            im: self.im.opposite(),
        }
    }

    // Whether each part is within t of 0.
    #[tactic(auto, unfolding(crate::specs::Gaussians::both_within))]
    pub fn within(self, t: u64) -> bool
        ensures { result ≡ both_within self t }
    {
        self.re.within(t) && self.im.within(t)
    }
}
