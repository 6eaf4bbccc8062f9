//! What prints: the acts `erlang:display/1`, `io:format/1` and `io:format/2`. The definitions stand in specs/.
#![tactic(auto)]
