//! What holds of covering and of views.

ghost use Rattle.std.specs.Prelude.{◌/◌, ◌≡◌, ◌≢◌, ◌≤◌, ℕ, true};
ghost use Rattle.dns_base.specs.Data.{Data};
ghost use Rattle.dns_base.specs.Header.{cd_of};
ghost use Rattle.client_request.specs.Request.{Request};
ghost use Rattle.right_trace.specs.Keys.{Covers, is_cacheable};
ghost use Rattle.right_trace.specs.Messages.{Octets};
ghost use Rattle.right_trace.specs.Parts.{Item, Parts};
ghost use Rattle.right_trace.specs.Settings.{Settings};
ghost use Rattle.right_trace.specs.Validity.{second};
ghost use Rattle.right_trace.specs.Views.{IsLessened, IsValidView, view_of, view_validity};

/// An answer may serve its own request, and what may serve for one that may serve for a third may serve for that.
/// No answer serves a request whose CD differs.
pub fn covering_is_an_order()
    ensures itself { (q : Request) → is_cacheable q ≡ true → Covers q q }
    ensures on { (q m r : Request) → Covers q m → Covers m r → Covers q r }
    ensures never_across_cd { (q r : Request) → cd_of q.header ≢ cd_of r.header → Covers q r → ⊥ }
{}

/// While a view is valid no TTL would be lessened below 0.
pub fn no_ttl_falls_below_zero()
    ensures { (s : Settings) (q r : Request) (m : Octets) (x : Parts Data) (age : ℕ) (y : Item Data) → IsValidView s q r m x age → IsLessened q r x y → age / second ≤ y.ttl }
{}

/// A view of a view is the view of the first message, and is valid as long.
pub fn views_compose()
    ensures view { (q m r : Request) (age : ℕ) (x : Parts Data) → Covers q m → Covers m r → view_of m r age (view_of q m 0 x) ≡ view_of q r age x }
    ensures validity { (s : Settings) (q m r : Request) (x : Parts Data) → Covers q m → Covers m r → view_validity s m r (view_of q m 0 x) ≡ view_validity s q r x }
{}
