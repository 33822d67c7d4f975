//! The query of a trial.

ghost use Rattle.std.specs.Prelude.{◌≡◌, Ok};
ghost use Rattle.query_lang.specs.declared.typed.TypedQuery.{TypedQuery};
ghost use Rattle.accepted_query.specs.{Accepted.accepted, TrialQuery.trial_query};

const TRIAL_QUERY: &[u8] = b"def count([c], []) { c = c + 1; }\n\
def lost([d], [tout]) { if (tout == infinity) { d = d + 1; } }\n\
def oos([last, n], [tcpseq, payload_len]) { if (last != tcpseq) { n = n + 1; } last = tcpseq + payload_len; }\n\
def deepest([m], [qsize]) { m = max(m, qsize); }\n\
a = groupby(pktstream, [srcip], count);\n\
b = groupby(pktstream, [switch], lost);\n\
e = groupby(pktstream, [5tuple], oos);\n\
g = groupby(pktstream, [switch], deepest);\n\
final big = top(a, c, 3);\n\
final odd = top(e, n, 3);\n\
final deep = top(g, m, 3);\n\
print big;\n\
print b;\n\
print odd;\n\
print deep;\n";

/// The text of the trial's query: packets of each source, packets that each switch dropped, bytes out of sequence in each
/// flow, and the longest queue of each switch.
#[tactic(auto, unfolding(crate::specs::TrialQuery::trial_query))]
pub fn trial_query() -> &'static [u8]
    ensures { result.now ≡ trial_query }
{
    TRIAL_QUERY
}

/// The trial's query has no fault: read, typed and staged by the definitions.
pub fn trial_is_accepted()
    ensures { (q : TypedQuery) × (accepted trial_query ≡ Ok q) }
{}
