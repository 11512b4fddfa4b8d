// An equation held against a store: what its residual (`elimination`) and its standing (`settling`) are read off.
ghost use Rattle.store.specs.Stages.{Ready, Line};
ghost use Rattle.store.specs.Singular.{Ready-prop};

// An equation, and the store in reduced form that it is held against.
#[derive(Clone, Copy)]
pub struct Against<'a> {
    pub store: &'a [u8],
    pub e: &'a [u8],
    pub c: usize,
    pub p: u8,
    pub ghost ready: { Ready p c store.now } by { Ready-prop p c store.now },
    pub ghost line: { Line p c e.now },
}
