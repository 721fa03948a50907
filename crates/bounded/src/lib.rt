// Sums, tests and tables over the numbers below a bound: definitions in specs/, their laws in proofs/. No code.

#![tactic(auto)]
