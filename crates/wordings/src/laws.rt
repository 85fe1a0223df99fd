//! Laws and worked rows of what words say.

ghost use Rattle.std.specs.Prelude.{◌≡◌, ℕ, List, option_map};
ghost use Rattle.invocation.specs.declared.tasks.ListOrder.{ListOrder};
ghost use Rattle.invocation.specs.declared.tasks.Order.{Order};
ghost use Rattle.invocation.specs.declared.tasks.Request.TheVariants as request;
ghost use Rattle.wordings.specs.Orders.{Says};

/// A law, with no code: words say at most one order.
pub fn words_say_one_order()
    ensures task { (words : List (List ℕ)) (o p : Order) → Says words (request.One o) → Says words (request.One p) → o.task ≡ p.task }
    ensures told { (words : List (List ℕ)) (o p : Order) → Says words (request.One o) → Says words (request.One p)
        → (o.named ≡ p.named) × (o.as_json ≡ p.as_json) × (o.tells_progress ≡ p.tells_progress) }
    ensures asked { (words : List (List ℕ)) (o p : Order) → Says words (request.One o) → Says words (request.One p)
        → option_map (λ name. name.now) o.asked ≡ option_map (λ name. name.now) p.asked }
    ensures form { (words : List (List ℕ)) (o p : Order) → Says words (request.One o) → Says words (request.One p) → o.form ≡ p.form }
    ensures first { (words : List (List ℕ)) (o p : Order) → Says words (request.One o) → Says words (request.One p)
        → o.first.now ≡ p.first.now }
    ensures second { (words : List (List ℕ)) (o p : Order) → Says words (request.One o) → Says words (request.One p)
        → option_map (λ name. name.now) o.second ≡ option_map (λ name. name.now) p.second }
    ensures third { (words : List (List ℕ)) (o p : Order) → Says words (request.One o) → Says words (request.One p)
        → option_map (λ name. name.now) o.third ≡ option_map (λ name. name.now) p.third }
    ensures output { (words : List (List ℕ)) (o p : Order) → Says words (request.One o) → Says words (request.One p)
        → option_map (λ name. name.now) o.output ≡ option_map (λ name. name.now) p.output }
{}

/// A law, with no code: words say at most one list of judgements, and none where they say an order.
pub fn words_say_one_list()
    ensures list { (words : List (List ℕ)) (l m : ListOrder) → Says words (request.Many l) → Says words (request.Many m)
        → (l.list.now ≡ m.list.now) × (l.as_json ≡ m.as_json) }
    ensures no_order { (words : List (List ℕ)) (o : Order) (l : ListOrder) → Says words (request.One o)
        → ¬ Says words (request.Many l) }
{}
