//! Worked rows of what words say.

ghost use Rattle.std.specs.Prelude.{◌≡◌, ℕ, List, [], ◌∷◌, Some, None, true, false, codes};
ghost use Rattle.std.specs.Borrow.{Bor};
ghost use Rattle.aigertext.specs.declared.forms.Form.TheVariants as form;
ghost use Rattle.certificates.specs.declared.proof_form.ProofForm.TheVariants as proof;
ghost use Rattle.vcd.specs.declared.scope.Shown.TheVariants as shown;
ghost use Rattle.invocation.specs.declared.tasks.Certificate.TheVariants as by;
ghost use Rattle.invocation.specs.declared.tasks.CertificateTask.TheVariants as certificate;
ghost use Rattle.invocation.specs.declared.tasks.CircuitTask.TheVariants as circuit;
ghost use Rattle.invocation.specs.declared.tasks.Given.TheVariants as given;
ghost use Rattle.invocation.specs.declared.tasks.Language.TheVariants as language;
ghost use Rattle.invocation.specs.declared.tasks.ListOrder.{ListOrder};
ghost use Rattle.invocation.specs.declared.tasks.ModelTask.TheVariants as model;
ghost use Rattle.invocation.specs.declared.tasks.Order.{Order};
ghost use Rattle.invocation.specs.declared.tasks.Task.TheVariants as task;
ghost use Rattle.invocation.specs.declared.tasks.TextTask.TheVariants as text;
ghost use Rattle.invocation.specs.declared.tasks.Request.TheVariants as request;
ghost use Rattle.wordings.specs.Orders.{Says};

/// Worked rows, with no code: words that say `lower`, and words that say nothing.
pub fn worked_lower()
    ensures says { (first output : Bor (List ℕ)) → first.now ≡ codes "m" → output.now ≡ codes "x"
        → Says (codes "lower" ∷ codes "-o" ∷ codes "x" ∷ codes "--binary" ∷ codes "m" ∷ []) (request.One (record { task = task.Text text.Lower; named = false; as_json = false; asked = None; form = form.Binary; first = first; second = None; third = None; output = Some output; tells_progress = true })) }
    ensures fitted { (first : Bor (List ℕ)) → first.now ≡ codes "m"
        → Says (codes "lower" ∷ codes "--fit" ∷ codes "m" ∷ []) (request.One (record { task = task.Model model.LowerFitted; named = false; as_json = false; asked = None; form = form.Ascii; first = first; second = None; third = None; output = None; tells_progress = true })) }
    ensures fitted_for_engines { (first : Bor (List ℕ)) → first.now ≡ codes "m"
        → Says (codes "lower" ∷ codes "--fit" ∷ codes "--engine" ∷ codes "m" ∷ []) (request.One (record { task = task.Model (model.LowerFittedForEngines None); named = false; as_json = false; asked = None; form = form.Ascii; first = first; second = None; third = None; output = None; tells_progress = true })) }
    ensures none { (o : Order) → ¬ Says (codes "lower" ∷ codes "--ascii" ∷ codes "--binary" ∷ codes "m" ∷ []) (request.One o) }
{}

/// Worked rows, with no code: words that say `check-btor`, and words that say nothing.
pub fn worked_check_btor()
    ensures says { (first second asked : Bor (List ℕ)) → first.now ≡ codes "m" → second.now ≡ codes "w" → asked.now ≡ codes "b"
        → Says (codes "check-btor" ∷ codes "m" ∷ codes "w" ∷ codes "--bad=b" ∷ codes "--json" ∷ []) (request.One (record { task = task.Model model.CheckBtor; named = false; as_json = true; asked = Some asked; form = form.Ascii; first = first; second = Some second; third = None; output = None; tells_progress = true })) }
    ensures fitted { (first second : Bor (List ℕ)) → first.now ≡ codes "m" → second.now ≡ codes "w"
        → Says (codes "check-btor" ∷ codes "m" ∷ codes "w" ∷ codes "--fit" ∷ []) (request.One (record { task = task.Model model.CheckFitted; named = false; as_json = false; asked = None; form = form.Ascii; first = first; second = Some second; third = None; output = None; tells_progress = true })) }
    ensures fitted_json { (first second : Bor (List ℕ)) → first.now ≡ codes "m" → second.now ≡ codes "w"
        → Says (codes "check-btor" ∷ codes "--fit" ∷ codes "--json" ∷ codes "m" ∷ codes "w" ∷ []) (request.One (record { task = task.Model model.CheckFitted; named = false; as_json = true; asked = None; form = form.Ascii; first = first; second = Some second; third = None; output = None; tells_progress = true })) }
    ensures none { (o : Order) → ¬ Says (codes "check-btor" ∷ codes "-" ∷ codes "-" ∷ []) (request.One o) }
{}

/// Worked rows, with no code: words that say `show`, and words that say nothing.
pub fn worked_show()
    ensures says { (first : Bor (List ℕ)) → first.now ≡ codes "m"
        → Says (codes "show" ∷ codes "m" ∷ []) (request.One (record { task = task.Model model.Show; named = false; as_json = false; asked = None; form = form.Ascii; first = first; second = None; third = None; output = None; tells_progress = true })) }
    ensures whole { (first : Bor (List ℕ)) → first.now ≡ codes "m"
        → Says (codes "show" ∷ codes "--fit" ∷ codes "m" ∷ []) (request.One (record { task = task.Model model.ShowWhole; named = false; as_json = false; asked = None; form = form.Ascii; first = first; second = None; third = None; output = None; tells_progress = true })) }
    ensures none { (o : Order) → ¬ Says (codes "show" ∷ codes "--binary" ∷ codes "m" ∷ []) (request.One o) }
{}

/// Worked rows, with no code: words that say `cost`, and words that say nothing.
pub fn worked_cost()
    ensures says { (first : Bor (List ℕ)) → first.now ≡ codes "m"
        → Says (codes "cost" ∷ codes "m" ∷ codes "--quiet" ∷ []) (request.One (record { task = task.Model model.Cost; named = false; as_json = false; asked = None; form = form.Ascii; first = first; second = None; third = None; output = None; tells_progress = false })) }
    ensures fitted { (first : Bor (List ℕ)) → first.now ≡ codes "m"
        → Says (codes "cost" ∷ codes "--fit" ∷ codes "m" ∷ []) (request.One (record { task = task.Model model.CostFitted; named = false; as_json = false; asked = None; form = form.Ascii; first = first; second = None; third = None; output = None; tells_progress = true })) }
    ensures none { (o : Order) → ¬ Says (codes "cost" ∷ codes "-ox" ∷ codes "m" ∷ []) (request.One o) }
{}

/// Worked rows, with no code: words that say `fit`, and words that say nothing.
pub fn worked_fit()
    ensures says { (first : Bor (List ℕ)) → first.now ≡ codes "m"
        → Says (codes "fit" ∷ codes "m" ∷ []) (request.One (record { task = task.Text text.Fit; named = false; as_json = false; asked = None; form = form.Ascii; first = first; second = None; third = None; output = None; tells_progress = true })) }
    ensures none { (o : Order) → ¬ Says (codes "fit" ∷ codes "--ascii" ∷ codes "m" ∷ []) (request.One o) }
{}

/// Worked rows, with no code: words that say `unfit`, and words that say nothing.
pub fn worked_unfit()
    ensures says { (first second : Bor (List ℕ)) → first.now ≡ codes "m" → second.now ≡ codes "w"
        → Says (codes "unfit" ∷ codes "--names" ∷ codes "m" ∷ codes "w" ∷ []) (request.One (record { task = task.Model model.Unfit; named = true; as_json = false; asked = None; form = form.Ascii; first = first; second = Some second; third = None; output = None; tells_progress = true })) }
    ensures back { (first second : Bor (List ℕ)) → first.now ≡ codes "m" → second.now ≡ codes "w"
        → Says (codes "unfit" ∷ codes "--back" ∷ codes "m" ∷ codes "w" ∷ []) (request.One (record { task = task.Model model.Spread; named = false; as_json = false; asked = None; form = form.Ascii; first = first; second = Some second; third = None; output = None; tells_progress = true })) }
    ensures alone { (o : Order) → ¬ Says (codes "unfit" ∷ codes "--back" ∷ codes "--names" ∷ codes "m" ∷ codes "w" ∷ []) (request.One o) }
{}

/// Worked rows, with no code: words that say `aig-convert`, and words that say nothing.
pub fn worked_aig_convert()
    ensures says { (first : Bor (List ℕ)) → first.now ≡ codes "m"
        → Says (codes "aig-convert" ∷ codes "--engine" ∷ codes "--outputs" ∷ codes "m" ∷ []) (request.One (record { task = task.Circuit (circuit.ConvertOutputsForEngines None); named = false; as_json = false; asked = None; form = form.Ascii; first = first; second = None; third = None; output = None; tells_progress = true })) }
    ensures none { (o : Order) → ¬ Says (codes "aig-convert" ∷ codes "--engine" ∷ codes "--engine" ∷ codes "m" ∷ []) (request.One o) }
{}

/// Worked rows, with no code: words that say `check-aig`, and words that say nothing.
pub fn worked_check_aig()
    ensures says { (first second : Bor (List ℕ)) → first.now ≡ codes "m" → second.now ≡ codes "w"
        → Says (codes "check-aig" ∷ codes "--names" ∷ codes "m" ∷ codes "w" ∷ []) (request.One (record { task = task.Circuit circuit.CheckAig; named = true; as_json = false; asked = None; form = form.Ascii; first = first; second = Some second; third = None; output = None; tells_progress = true })) }
    ensures none { (o : Order) → ¬ Says (codes "check-aig" ∷ codes "m" ∷ []) (request.One o) }
{}

/// Worked rows, with no code: words that say `lift`, and words that say nothing.
pub fn worked_lift()
    ensures says { (first second : Bor (List ℕ)) → first.now ≡ codes "m" → second.now ≡ codes "w"
        → Says (codes "lift" ∷ codes "--engine" ∷ codes "--abc" ∷ codes "m" ∷ codes "w" ∷ []) (request.One (record { task = task.Model (model.LiftFound language.Profile None); named = false; as_json = false; asked = None; form = form.Ascii; first = first; second = Some second; third = None; output = None; tells_progress = true })) }
    ensures fitted { (first second : Bor (List ℕ)) → first.now ≡ codes "m" → second.now ≡ codes "w"
        → Says (codes "lift" ∷ codes "--fit" ∷ codes "m" ∷ codes "w" ∷ []) (request.One (record { task = task.Model (model.Lift language.Whole); named = false; as_json = false; asked = None; form = form.Ascii; first = first; second = Some second; third = None; output = None; tells_progress = true })) }
    ensures fitted_found { (first second : Bor (List ℕ)) → first.now ≡ codes "m" → second.now ≡ codes "w"
        → Says (codes "lift" ∷ codes "--engine" ∷ codes "--abc" ∷ codes "--fit" ∷ codes "m" ∷ codes "w" ∷ []) (request.One (record { task = task.Model (model.LiftFound language.Whole None); named = false; as_json = false; asked = None; form = form.Ascii; first = first; second = Some second; third = None; output = None; tells_progress = true })) }
    ensures none { (o : Order) → ¬ Says (codes "lift" ∷ codes "--abc" ∷ codes "m" ∷ codes "w" ∷ []) (request.One o) }
{}

/// Worked rows, with no code: words that say `restore`, and words that say nothing.
pub fn worked_restore()
    ensures says { (first second : Bor (List ℕ)) → first.now ≡ codes "m" → second.now ≡ codes "w"
        → Says (codes "restore" ∷ codes "m" ∷ codes "w" ∷ []) (request.One (record { task = task.Circuit (circuit.RestoreForm None); named = false; as_json = false; asked = None; form = form.Ascii; first = first; second = Some second; third = None; output = None; tells_progress = true })) }
    ensures none { (o : Order) → ¬ Says (codes "restore" ∷ codes "m" ∷ codes "w" ∷ codes "--bad" ∷ []) (request.One o) }
{}

/// Worked rows, with no code: words that say `wave`, and words that say nothing.
pub fn worked_wave()
    ensures says { (first second : Bor (List ℕ)) → first.now ≡ codes "m" → second.now ≡ codes "w"
        → Says (codes "wave" ∷ codes "--all" ∷ codes "m" ∷ codes "w" ∷ []) (request.One (record { task = task.Model (model.Wave shown.All); named = false; as_json = false; asked = None; form = form.Ascii; first = first; second = Some second; third = None; output = None; tells_progress = true })) }
    ensures none { (o : Order) → ¬ Says (codes "wave" ∷ codes "m" ∷ codes "w" ∷ codes "p" ∷ []) (request.One o) }
{}

/// Worked rows, with no code: words that say `obligation`, and words that say nothing.
pub fn worked_obligation()
    ensures says { (first second : Bor (List ℕ)) → first.now ≡ codes "m" → second.now ≡ codes "w"
        → Says (codes "obligation" ∷ codes "--aiger" ∷ codes "m" ∷ codes "w" ∷ []) (request.One (record { task = task.Certificate (certificate.Obligation (record { given = given.Circuit; by = by.Invariant; choice = None })); named = false; as_json = false; asked = None; form = form.Ascii; first = first; second = Some second; third = None; output = None; tells_progress = true })) }
    ensures none { (o : Order) → ¬ Says (codes "obligation" ∷ codes "--engine" ∷ codes "m" ∷ codes "w" ∷ []) (request.One o) }
{}

/// Worked rows, with no code: words that say `check-proof`, and words that say nothing.
pub fn worked_check_proof()
    ensures says { (first second third : Bor (List ℕ)) → first.now ≡ codes "m" → second.now ≡ codes "w" → third.now ≡ codes "p"
        → Says (codes "check-proof" ∷ codes "--circuit" ∷ codes "--engine" ∷ codes "m" ∷ codes "w" ∷ codes "p" ∷ []) (request.One (record { task = task.Certificate (certificate.CheckProof (record { given = given.Model; by = by.CircuitOfForm; choice = None }) proof.Plain); named = false; as_json = false; asked = None; form = form.Ascii; first = first; second = Some second; third = Some third; output = None; tells_progress = true })) }
    ensures fitted { (first second third : Bor (List ℕ)) → first.now ≡ codes "m" → second.now ≡ codes "w" → third.now ≡ codes "p"
        → Says (codes "check-proof" ∷ codes "--fit" ∷ codes "m" ∷ codes "w" ∷ codes "p" ∷ []) (request.One (record { task = task.Certificate (certificate.CheckProof (record { given = given.Fitted; by = by.Invariant; choice = None }) proof.Plain); named = false; as_json = false; asked = None; form = form.Ascii; first = first; second = Some second; third = Some third; output = None; tells_progress = true })) }
    ensures fitted_circuit { (o : Order) → ¬ Says (codes "check-proof" ∷ codes "--fit" ∷ codes "--aiger" ∷ codes "m" ∷ codes "w" ∷ codes "p" ∷ []) (request.One o) }
    ensures none { (o : Order) → ¬ Says (codes "check-proof" ∷ codes "m" ∷ codes "w" ∷ []) (request.One o) }
{}

/// Worked rows, with no code: words that say `tidy-witness`, and words that say nothing.
pub fn worked_tidy_witness()
    ensures says { (first : Bor (List ℕ)) → first.now ≡ codes "m"
        → Says (codes "tidy-witness" ∷ codes "m" ∷ []) (request.One (record { task = task.Text (text.TidyWitness 1); named = false; as_json = false; asked = None; form = form.Ascii; first = first; second = None; third = None; output = None; tells_progress = true })) }
    ensures none { (o : Order) → ¬ Says (codes "tidy-witness" ∷ codes "--binary" ∷ codes "m" ∷ []) (request.One o) }
{}

/// Worked rows, with no code: words that say `vectors`, and words that say nothing.
pub fn worked_vectors()
    ensures says { (first : Bor (List ℕ)) → first.now ≡ codes "-m"
        → Says (codes "vectors" ∷ codes "--" ∷ codes "-m" ∷ []) (request.One (record { task = task.Text text.Vectors; named = false; as_json = false; asked = None; form = form.Ascii; first = first; second = None; third = None; output = None; tells_progress = true })) }
    ensures none { (o : Order) → ¬ Says (codes "vectors" ∷ codes "-m" ∷ []) (request.One o) }
{}

/// Worked rows, with no code: no words, and a word that is no command.
pub fn worked_bare()
    ensures says { (first : Bor (List ℕ)) → first.now ≡ codes "-"
        → Says ([]) (request.One (record { task = task.Text text.Lower; named = false; as_json = false; asked = None; form = form.Ascii; first = first; second = None; third = None; output = None; tells_progress = true })) }
    ensures none { (o : Order) → ¬ Says (codes "m" ∷ []) (request.One o) }
{}

/// Worked rows, with no code: words that say `judge`, which are no order, and words that say nothing.
pub fn worked_judge()
    ensures says { (list : Bor (List ℕ)) → list.now ≡ codes "l"
        → Says (codes "judge" ∷ codes "l" ∷ codes "--json" ∷ []) (request.Many (record { list = list; as_json = true })) }
    ensures no_order { (o : Order) → ¬ Says (codes "judge" ∷ codes "l" ∷ codes "--json" ∷ []) (request.One o) }
    ensures none { (l : ListOrder) → ¬ Says (codes "judge" ∷ codes "--quiet" ∷ codes "l" ∷ []) (request.Many l) }
{}
