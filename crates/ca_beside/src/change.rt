//! Changes of one object.

ghost use Rattle.std.specs.Prelude.{◌≡◌};
ghost use Rattle.ca_model.specs.declared.value.Object.{Object};

use ca_model::Object;

/// What is done to an object in its place.
pub trait Change {
    /// What it makes of an object.
    ghost makes: { Self → Object → Object };

    /// Does it. It takes no memory.
    fn apply(&self, object: &mut Object)
        ensures { object.new ≡ makes self.now object.old };
}
