ghost use Rattle.std.specs.Prelude.{◌≡◌, ℕ, List};
ghost use Rattle.fb_base.specs.declared.fault.Span.{Span};
ghost use Rattle.fb_ast.specs.declared.ty.TypeName.{TypeName};
ghost use Rattle.const_values.specs.declared.outcome.Outcome.{Outcome};

use crate::outcome::Outcome;
use fb_ast::TypeName;
use fb_base::Span;

/// What a constant expression may speak of: the Consts, and the sizes of types.
pub trait Known {
    /// What a name stands for that is written at a place.
    ghost named: { Self → Span → List ℕ → Outcome };

    /// What SizeOf gives for a type.
    ghost sized: { Self → TypeName → Outcome };

    /// What a name stands for, in lower case: a Const's value, no value where it names something else, and a fault at
    /// its place where it names nothing.
    fn named(&self, at: Span, name: &[u8]) -> Outcome
        ensures { result ≡ named self.now at name.now };

    /// What SizeOf gives for a type (FreeBASIC Manual, Sizeof): its size, no value where that isn't known, and a fault at
    /// its place where what is written is no type. The fault counts wherever a type is written, the value in SizeOf alone.
    fn sized(&self, ty: &TypeName) -> Outcome
        ensures { result ≡ sized self.now ty.now };
}
