// A tray that is well packed, as test 4 finds it.
ghost use Rattle.std.specs.Prelude.{true, ◌≡◌};
ghost use Rattle.wire.specs.Tray.{well_formed};

#[derive(Clone, Copy)]
pub(crate) struct PackedTray<'a> {
    pub bytes: &'a [u8],
    ghost packed: { well_formed bytes.now ≡ true },
}
