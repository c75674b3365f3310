//! The numbers of scalar elements.

ghost use Rattle.std.specs.Prelude.{ℕ, length, slice_get, take, flat_map, codes, Some, None, List};
ghost use Rattle.std.specs.Prelude.{[], ◌∷◌, ◌≡◌};
ghost use Rattle.std.specs.List.{range_with_len};
ghost use Rattle.lb_syntax.specs.Lists.{Every, In};
ghost use Rattle.lb_syntax.specs.declared.tree.Kind.TheVariants.{Int as Int_kind};
ghost use Rattle.lb_syntax.specs.declared.tree.Kind.TheVariants.{Bool as Bool_kind};
ghost use Rattle.lb_syntax.specs.Tree.{Name, Declaration};
ghost use Rattle.lb_static.specs.Instances.{Program, Instance, Path, Root, Observer, Child};
ghost use Rattle.lb_static.specs.Instances.{instance_at, instances};
ghost use Rattle.lb_static.specs.Instantiation.{static_refusal};
ghost use Rattle.lb_static.specs.DataTypes.{variables, width, input_kinds};
ghost use Rattle.lb_check.specs.Needs.{Element};
ghost use Rattle.lb_check.specs.Elements.{program_elements, element_kinds, numbers_of};
ghost use Rattle.lb_worked.specs.WorkedArrays.{counters, static_parameter, observed};
ghost use Rattle.lb_worked.specs.WorkedClocks.{slower_counter};
ghost use Rattle.lb_worked.specs.WorkedSamples.{element_of};

/// The elements of a program are numbered from 0 on, instance by instance, the observer last.
pub fn numbers_of_elements()
    ensures of_an_array { numbers_of counters Root (codes "S") ≡ 5 ∷ 6 ∷ 7 ∷ [] }
    ensures of_an_iterated_node { numbers_of counters (Child Root 0 2) (codes "n") ≡ 13 ∷ [] }
    ensures of_no_instance { numbers_of counters (Child Root 0 3) (codes "n") ≡ [] }
    ensures of_no_variable { numbers_of counters Root (codes "T") ≡ [] }
    ensures in_all { length (program_elements counters) ≡ 14 }
    ensures of_a_slower_call { numbers_of slower_counter (Child Root 0 0) (codes "x") ≡ 5 ∷ [] }
    ensures of_one_size { numbers_of static_parameter (Child Root 0 0) (codes "A") ≡ 5 ∷ 6 ∷ [] }
    ensures of_another_size { numbers_of static_parameter (Child Root 1 0) (codes "A")
        ≡ 9 ∷ 10 ∷ 11 ∷ [] }
    ensures of_the_observer { numbers_of observed Observer (codes "x") ≡ 2 ∷ [] }
    ensures kinds { element_kinds observed
        ≡ Int_kind ∷ Int_kind ∷ Int_kind ∷ Int_kind ∷ Bool_kind ∷ [] }
    ensures at_a_number { slice_get (program_elements counters) 6 ≡ Some (element_of Root "S" 1) }
{}

/// In every program without a static refusal, the number of an element is its place among all. In
/// the order of instantiation the variables have the numbers from 0 on, without gaps.
pub fn numbers_and_places()
    ensures number { (P : Program) → static_refusal P ≡ None →
        (i : ℕ) (x : Element) → slice_get (program_elements P) i ≡ Some x →
        slice_get (numbers_of P x.path x.variable) x.index ≡ Some i }
    ensures place { (P : Program) → static_refusal P ≡ None →
        (p : Path) (x : Name) (k i : ℕ) → slice_get (numbers_of P p x) k ≡ Some i →
        slice_get (program_elements P) i
        ≡ Some (record { path = p; variable = x; index = k }) }
    ensures in_order { (P : Program) → static_refusal P ≡ None →
        flat_map (λ (here : Instance).
        flat_map (λ (d : Declaration). numbers_of P here.path d.name) (variables here.node))
        (instances P)
        ≡ range_with_len 0 (length (program_elements P)) }
    ensures as_wide { (P : Program) → static_refusal P ≡ None →
        (here : Instance) → In here (instances P) →
        Every (λ (d : Declaration). length (numbers_of P here.path d.name) ≡ width P here d)
        (variables here.node) }
{}

/// In every program without a static refusal, the kind at the number of an element is that of its
/// variable, and the scalar inputs come first.
pub fn kinds_and_inputs()
    ensures as_many { (P : Program) → length (element_kinds P) ≡ length (program_elements P) }
    ensures kind { (P : Program) → static_refusal P ≡ None →
        (here : Instance) → In here (instances P) →
        (d : Declaration) → In d (variables here.node) →
        Every (λ (i : ℕ). slice_get (element_kinds P) i ≡ Some d.kind)
        (numbers_of P here.path d.name) }
    ensures inputs { (P : Program) → static_refusal P ≡ None →
        (root : Instance) → instance_at P Root ≡ Some root →
        flat_map (λ (d : Declaration). numbers_of P Root d.name) root.node.inputs
        ≡ range_with_len 0 (length (input_kinds P)) }
    ensures kinds_of_inputs { (P : Program) (root : Instance) → instance_at P Root ≡ Some root →
        take (length (input_kinds P)) (element_kinds P) ≡ input_kinds P }
{}
