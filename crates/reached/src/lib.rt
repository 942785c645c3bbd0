// Lists of calls from a new host that reach the stream and move audio blocks (specs/ gives them, proofs/ proves what they come to).
#![tactic(auto)]
