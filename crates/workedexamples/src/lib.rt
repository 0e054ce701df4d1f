// Worked examples as theorems: the table P1 to P9 (specs/P1toP9.antt), and tables of further cases of the machine (specs/Further.antt), of the plan file
// (specs/PlanFiles.antt) and of the calls (specs/Calls.antt). There is no code here.
#![tactic(auto)]
