// Request A5: recipients cut into entries. Definitions alone, in specs/; the call answers the number of groups, or a refusal. No code.
#![tactic(auto)]
