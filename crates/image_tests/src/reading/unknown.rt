// Row 26 beside rows of later keys of any kind, of which the key table has some
// kinds yet: no image shows all, so it is computed from the definition that the
// reader keeps.
ghost use Rattle.image_tests.specs.Later.{KeysAnywhere};

fn known_keys()
    ensures anywhere { KeysAnywhere }
{}

#[test]
fn keys_anywhere() {
    known_keys();
}
