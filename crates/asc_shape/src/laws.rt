//! Laws of the definitions. Each function stands for the law that it ensures, and does nothing.

ghost use Rattle.std.specs.Prelude.{◌≡◌, ◌↔◌, Ok};
ghost use Rattle.asc_model.specs.Shape as model;
ghost use Rattle.asc_shape.specs.Shape.{shape_of};

/// The good shapes of the model are those that a base, a size and a version make.
pub fn good_shapes_are_made()
    ensures { (shape : model.Shape) → (shape_of shape.base shape.size shape.version ≡ Ok shape) ↔ model.IsShape shape }
{}
