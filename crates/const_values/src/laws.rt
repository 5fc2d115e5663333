//! Laws on the values of constant expressions, each on a function with an empty body.
ghost use Rattle.std.specs.Prelude.{◌≡◌, ◌⊎◌, ℕ, List, map};
ghost use Rattle.word64.specs.declared.kind.Kind.{Kind};
ghost use Rattle.fb_base.specs.declared.fault.Span.{Span};
ghost use Rattle.fb_base.specs.declared.fault.Fault.{Fault};
ghost use Rattle.fb_base.specs.declared.fault.FaultKind.TheVariants.{BadBounds};
ghost use Rattle.fb_ast.specs.declared.operator.Binary.{Binary as Operator};
ghost use Rattle.fb_ast.specs.declared.operator.Binary.TheVariants.{Divide, Mod};
ghost use Rattle.fb_ast.specs.declared.operator.Unary.{Unary as Sign};
ghost use Rattle.fb_ast.specs.declared.operator.CallWord.{CallWord as Word};
ghost use Rattle.fb_ast.specs.declared.part.Name.{Name};
ghost use Rattle.fb_ast.specs.declared.ty.TypeName.{TypeName};
ghost use Rattle.fb_ast.specs.declared.expr.Expr.{Expr};
ghost use Rattle.fb_ast.specs.declared.expr.Expr.TheVariants.{
  Arrow,
  Binary,
  Call,
  CallWord,
  Cast,
  CPtr,
  Field,
  IIf,
  Index,
  NewArray,
  NewWith,
  Paren,
  Unary,
};
ghost use Rattle.fb_ast.specs.Places.{place_of};
ghost use Rattle.const_values.specs.declared.outcome.Constant.{Constant};
ghost use Rattle.const_values.specs.declared.outcome.Outcome.{Outcome};
ghost use Rattle.const_values.specs.declared.outcome.Outcome.TheVariants.{NoValue, Value};
ghost use Rattle.const_values.specs.Faults.{faults_of, first_of};
ghost use Rattle.const_values.specs.Values.{
  after,
  between,
  called,
  cast,
  choice,
  constant_of,
  unary,
  value_of,
  without_value,
  written_kind,
};

/// An expression with parts comes to what its parts come to, whatever they are: in parentheses to the same; with an
/// operator, in an IIf, a Cast or under a word that is called to what these give of their parts; and every other one to
/// the first fault of its parts or to no value.
pub fn parts_alone_count()
    ensures paren { (named : Span → List ℕ → Outcome) (sized : TypeName → Outcome) (at : Span) (e : Expr) → value_of named sized (Paren at e) ≡ value_of named sized e }
    ensures unary { (named : Span → List ℕ → Outcome) (sized : TypeName → Outcome) (at : Span) (op : Sign) (e : Expr) → value_of named sized (Unary at op e) ≡ unary op (value_of named sized e) }
    ensures binary { (named : Span → List ℕ → Outcome) (sized : TypeName → Outcome) (at : Span) (place : Span) (left right : Expr) (op : Operator) → value_of named sized (Binary at left op place right) ≡ between op (value_of named sized left) (value_of named sized right) }
    ensures iif { (named : Span → List ℕ → Outcome) (sized : TypeName → Outcome) (at : Span) (c a b : Expr) → value_of named sized (IIf at c a b) ≡ choice (value_of named sized c) (value_of named sized a) (value_of named sized b) }
    ensures cast { (named : Span → List ℕ → Outcome) (sized : TypeName → Outcome) (at : Span) (ty : TypeName) (e : Expr) → value_of named sized (Cast at ty e) ≡ after (sized ty) (cast (written_kind ty.base ty.pointers) (value_of named sized e)) }
    ensures word { (named : Span → List ℕ → Outcome) (sized : TypeName → Outcome) (at : Span) (word : Word) (args : List Expr) → value_of named sized (CallWord at word args) ≡ called word (map (value_of named sized) args) }
    ensures cptr { (named : Span → List ℕ → Outcome) (sized : TypeName → Outcome) (at : Span) (ty : TypeName) (e : Expr) → value_of named sized (CPtr at ty e) ≡ after (sized ty) (after (value_of named sized e) NoValue) }
    ensures new_with { (named : Span → List ℕ → Outcome) (sized : TypeName → Outcome) (at : Span) (ty : TypeName) (args : List Expr) → value_of named sized (NewWith at ty args) ≡ after (sized ty) (without_value (map (value_of named sized) args)) }
    ensures new_array { (named : Span → List ℕ → Outcome) (sized : TypeName → Outcome) (at : Span) (ty : TypeName) (e : Expr) → value_of named sized (NewArray at ty e) ≡ after (sized ty) (after (value_of named sized e) NoValue) }
    ensures call { (named : Span → List ℕ → Outcome) (sized : TypeName → Outcome) (at : Span) (callee : Expr) (args : List Expr) → value_of named sized (Call at callee args) ≡ after (value_of named sized callee) (without_value (map (value_of named sized) args)) }
    ensures index { (named : Span → List ℕ → Outcome) (sized : TypeName → Outcome) (at : Span) (pointer index : Expr) → value_of named sized (Index at pointer index) ≡ after (value_of named sized pointer) (after (value_of named sized index) NoValue) }
    ensures field { (named : Span → List ℕ → Outcome) (sized : TypeName → Outcome) (at : Span) (whole : Expr) (name : Name) → value_of named sized (Field at whole name) ≡ after (value_of named sized whole) NoValue }
    ensures arrow { (named : Span → List ℕ → Outcome) (sized : TypeName → Outcome) (at : Span) (pointer : Expr) (name : Name) → value_of named sized (Arrow at pointer name) ≡ after (value_of named sized pointer) NoValue }
{}

/// The fault of a constant expression is the first one of a name or a type in it, in the order of the text, wherever it
/// stands. Only where none of them has one has it a value, or is BadBounds at its first token.
pub fn names_and_types_go_first()
    ensures first { (named : Span → List ℕ → Outcome) (sized : TypeName → Outcome) (e : Expr) (fault : Fault) → first_of (faults_of named sized e) ≡ Some fault → constant_of named sized e ≡ Err fault }
    ensures none { (named : Span → List ℕ → Outcome) (sized : TypeName → Outcome) (e : Expr) → first_of (faults_of named sized e) ≡ None → ((c : Constant) × (constant_of named sized e ≡ Ok c)) ⊎ (constant_of named sized e ≡ Err (record { kind = BadBounds; at = place_of e })) }
{}

/// What is divided by zero has no value.
pub fn no_division_by_zero()
    ensures quotient { (a : Constant) (k : Kind) → between Divide (Value a) (Value (record { kind = k; word = 0 })) ≡ NoValue }
    ensures remainder { (a : Constant) (k : Kind) → between Mod (Value a) (Value (record { kind = k; word = 0 })) ≡ NoValue }
{}
